// made by c/exports.py
//! What a handle can have, each in a struct of its own.
ghost use Rattle.std.specs.Prelude.{◌≡◌};

use crate::place::{FourSlotPlace, TriplePlace};
use crate::record::{
    Record8, Record24, Record64, Record128, Record256, Record1024, Record4096, Record65536,
    Record1048576,
};
use c_boards::Seated;
use c_registers::{FourSlotReader, FourSlotWriter, TripleReader, TripleWriter, Wraps};

/// A place at a board over four-slot cells with records of 24 bytes.
pub type FourSlotSeat24 = Seated<FourSlotPlace<Record24>>;

/// A place at a board over four-slot cells with records of 256 bytes.
pub type FourSlotSeat256 = Seated<FourSlotPlace<Record256>>;

/// A place at a board over four-slot cells with records of 4,096 bytes.
pub type FourSlotSeat4096 = Seated<FourSlotPlace<Record4096>>;

/// A place at a board over triple buffers with records of 24 bytes.
pub type TripleSeat24 = Seated<TriplePlace<Record24>>;

/// A place at a board over triple buffers with records of 256 bytes.
pub type TripleSeat256 = Seated<TriplePlace<Record256>>;

/// A place at a board over triple buffers with records of 4,096 bytes.
pub type TripleSeat4096 = Seated<TriplePlace<Record4096>>;

/// The writing side of a four-slot cell with records of 8 bytes.
#[derive(Drop)]
pub struct FourSlotWriter8 {
    pub it: FourSlotWriter<Record8>,
}

impl Wraps<FourSlotWriter<Record8>> for FourSlotWriter8 {
    ghost use Rattle.std.proofs.Common.{refl};

    ghost inner = { λ d. d.it };

    ghost side = { λ s. record { it = s } };

    #[inline]
    fn inside(&mut self) -> &mut FourSlotWriter<Record8> {
        &mut self.it
    }

    fn whole(variant: FourSlotWriter<Record8>) -> FourSlotWriter8 {
        FourSlotWriter8 { it: variant }
    }

    ghost whole_of = { λ d. refl };
}

/// The reading side of a four-slot cell with records of 8 bytes.
#[derive(Drop)]
pub struct FourSlotReader8 {
    pub it: FourSlotReader<Record8>,
}

impl Wraps<FourSlotReader<Record8>> for FourSlotReader8 {
    ghost use Rattle.std.proofs.Common.{refl};

    ghost inner = { λ d. d.it };

    ghost side = { λ s. record { it = s } };

    #[inline]
    fn inside(&mut self) -> &mut FourSlotReader<Record8> {
        &mut self.it
    }

    fn whole(variant: FourSlotReader<Record8>) -> FourSlotReader8 {
        FourSlotReader8 { it: variant }
    }

    ghost whole_of = { λ d. refl };
}

/// The writing side of a triple buffer with records of 8 bytes.
#[derive(Drop)]
pub struct TripleWriter8 {
    pub it: TripleWriter<Record8>,
}

impl Wraps<TripleWriter<Record8>> for TripleWriter8 {
    ghost use Rattle.std.proofs.Common.{refl};

    ghost inner = { λ d. d.it };

    ghost side = { λ s. record { it = s } };

    #[inline]
    fn inside(&mut self) -> &mut TripleWriter<Record8> {
        &mut self.it
    }

    fn whole(variant: TripleWriter<Record8>) -> TripleWriter8 {
        TripleWriter8 { it: variant }
    }

    ghost whole_of = { λ d. refl };
}

/// The reading side of a triple buffer with records of 8 bytes.
#[derive(Drop)]
pub struct TripleReader8 {
    pub it: TripleReader<Record8>,
}

impl Wraps<TripleReader<Record8>> for TripleReader8 {
    ghost use Rattle.std.proofs.Common.{refl};

    ghost inner = { λ d. d.it };

    ghost side = { λ s. record { it = s } };

    #[inline]
    fn inside(&mut self) -> &mut TripleReader<Record8> {
        &mut self.it
    }

    fn whole(variant: TripleReader<Record8>) -> TripleReader8 {
        TripleReader8 { it: variant }
    }

    ghost whole_of = { λ d. refl };
}

/// The writing side of a four-slot cell with records of 24 bytes.
#[derive(Drop)]
pub struct FourSlotWriter24 {
    pub it: FourSlotWriter<Record24>,
}

impl Wraps<FourSlotWriter<Record24>> for FourSlotWriter24 {
    ghost use Rattle.std.proofs.Common.{refl};

    ghost inner = { λ d. d.it };

    ghost side = { λ s. record { it = s } };

    #[inline]
    fn inside(&mut self) -> &mut FourSlotWriter<Record24> {
        &mut self.it
    }

    fn whole(variant: FourSlotWriter<Record24>) -> FourSlotWriter24 {
        FourSlotWriter24 { it: variant }
    }

    ghost whole_of = { λ d. refl };
}

/// The reading side of a four-slot cell with records of 24 bytes.
#[derive(Drop)]
pub struct FourSlotReader24 {
    pub it: FourSlotReader<Record24>,
}

impl Wraps<FourSlotReader<Record24>> for FourSlotReader24 {
    ghost use Rattle.std.proofs.Common.{refl};

    ghost inner = { λ d. d.it };

    ghost side = { λ s. record { it = s } };

    #[inline]
    fn inside(&mut self) -> &mut FourSlotReader<Record24> {
        &mut self.it
    }

    fn whole(variant: FourSlotReader<Record24>) -> FourSlotReader24 {
        FourSlotReader24 { it: variant }
    }

    ghost whole_of = { λ d. refl };
}

/// The writing side of a triple buffer with records of 24 bytes.
#[derive(Drop)]
pub struct TripleWriter24 {
    pub it: TripleWriter<Record24>,
}

impl Wraps<TripleWriter<Record24>> for TripleWriter24 {
    ghost use Rattle.std.proofs.Common.{refl};

    ghost inner = { λ d. d.it };

    ghost side = { λ s. record { it = s } };

    #[inline]
    fn inside(&mut self) -> &mut TripleWriter<Record24> {
        &mut self.it
    }

    fn whole(variant: TripleWriter<Record24>) -> TripleWriter24 {
        TripleWriter24 { it: variant }
    }

    ghost whole_of = { λ d. refl };
}

/// The reading side of a triple buffer with records of 24 bytes.
#[derive(Drop)]
pub struct TripleReader24 {
    pub it: TripleReader<Record24>,
}

impl Wraps<TripleReader<Record24>> for TripleReader24 {
    ghost use Rattle.std.proofs.Common.{refl};

    ghost inner = { λ d. d.it };

    ghost side = { λ s. record { it = s } };

    #[inline]
    fn inside(&mut self) -> &mut TripleReader<Record24> {
        &mut self.it
    }

    fn whole(variant: TripleReader<Record24>) -> TripleReader24 {
        TripleReader24 { it: variant }
    }

    ghost whole_of = { λ d. refl };
}

/// The writing side of a four-slot cell with records of 64 bytes.
#[derive(Drop)]
pub struct FourSlotWriter64 {
    pub it: FourSlotWriter<Record64>,
}

impl Wraps<FourSlotWriter<Record64>> for FourSlotWriter64 {
    ghost use Rattle.std.proofs.Common.{refl};

    ghost inner = { λ d. d.it };

    ghost side = { λ s. record { it = s } };

    #[inline]
    fn inside(&mut self) -> &mut FourSlotWriter<Record64> {
        &mut self.it
    }

    fn whole(variant: FourSlotWriter<Record64>) -> FourSlotWriter64 {
        FourSlotWriter64 { it: variant }
    }

    ghost whole_of = { λ d. refl };
}

/// The reading side of a four-slot cell with records of 64 bytes.
#[derive(Drop)]
pub struct FourSlotReader64 {
    pub it: FourSlotReader<Record64>,
}

impl Wraps<FourSlotReader<Record64>> for FourSlotReader64 {
    ghost use Rattle.std.proofs.Common.{refl};

    ghost inner = { λ d. d.it };

    ghost side = { λ s. record { it = s } };

    #[inline]
    fn inside(&mut self) -> &mut FourSlotReader<Record64> {
        &mut self.it
    }

    fn whole(variant: FourSlotReader<Record64>) -> FourSlotReader64 {
        FourSlotReader64 { it: variant }
    }

    ghost whole_of = { λ d. refl };
}

/// The writing side of a triple buffer with records of 64 bytes.
#[derive(Drop)]
pub struct TripleWriter64 {
    pub it: TripleWriter<Record64>,
}

impl Wraps<TripleWriter<Record64>> for TripleWriter64 {
    ghost use Rattle.std.proofs.Common.{refl};

    ghost inner = { λ d. d.it };

    ghost side = { λ s. record { it = s } };

    #[inline]
    fn inside(&mut self) -> &mut TripleWriter<Record64> {
        &mut self.it
    }

    fn whole(variant: TripleWriter<Record64>) -> TripleWriter64 {
        TripleWriter64 { it: variant }
    }

    ghost whole_of = { λ d. refl };
}

/// The reading side of a triple buffer with records of 64 bytes.
#[derive(Drop)]
pub struct TripleReader64 {
    pub it: TripleReader<Record64>,
}

impl Wraps<TripleReader<Record64>> for TripleReader64 {
    ghost use Rattle.std.proofs.Common.{refl};

    ghost inner = { λ d. d.it };

    ghost side = { λ s. record { it = s } };

    #[inline]
    fn inside(&mut self) -> &mut TripleReader<Record64> {
        &mut self.it
    }

    fn whole(variant: TripleReader<Record64>) -> TripleReader64 {
        TripleReader64 { it: variant }
    }

    ghost whole_of = { λ d. refl };
}

/// The writing side of a four-slot cell with records of 256 bytes.
#[derive(Drop)]
pub struct FourSlotWriter256 {
    pub it: FourSlotWriter<Record256>,
}

impl Wraps<FourSlotWriter<Record256>> for FourSlotWriter256 {
    ghost use Rattle.std.proofs.Common.{refl};

    ghost inner = { λ d. d.it };

    ghost side = { λ s. record { it = s } };

    #[inline]
    fn inside(&mut self) -> &mut FourSlotWriter<Record256> {
        &mut self.it
    }

    fn whole(variant: FourSlotWriter<Record256>) -> FourSlotWriter256 {
        FourSlotWriter256 { it: variant }
    }

    ghost whole_of = { λ d. refl };
}

/// The reading side of a four-slot cell with records of 256 bytes.
#[derive(Drop)]
pub struct FourSlotReader256 {
    pub it: FourSlotReader<Record256>,
}

impl Wraps<FourSlotReader<Record256>> for FourSlotReader256 {
    ghost use Rattle.std.proofs.Common.{refl};

    ghost inner = { λ d. d.it };

    ghost side = { λ s. record { it = s } };

    #[inline]
    fn inside(&mut self) -> &mut FourSlotReader<Record256> {
        &mut self.it
    }

    fn whole(variant: FourSlotReader<Record256>) -> FourSlotReader256 {
        FourSlotReader256 { it: variant }
    }

    ghost whole_of = { λ d. refl };
}

/// The writing side of a triple buffer with records of 256 bytes.
#[derive(Drop)]
pub struct TripleWriter256 {
    pub it: TripleWriter<Record256>,
}

impl Wraps<TripleWriter<Record256>> for TripleWriter256 {
    ghost use Rattle.std.proofs.Common.{refl};

    ghost inner = { λ d. d.it };

    ghost side = { λ s. record { it = s } };

    #[inline]
    fn inside(&mut self) -> &mut TripleWriter<Record256> {
        &mut self.it
    }

    fn whole(variant: TripleWriter<Record256>) -> TripleWriter256 {
        TripleWriter256 { it: variant }
    }

    ghost whole_of = { λ d. refl };
}

/// The reading side of a triple buffer with records of 256 bytes.
#[derive(Drop)]
pub struct TripleReader256 {
    pub it: TripleReader<Record256>,
}

impl Wraps<TripleReader<Record256>> for TripleReader256 {
    ghost use Rattle.std.proofs.Common.{refl};

    ghost inner = { λ d. d.it };

    ghost side = { λ s. record { it = s } };

    #[inline]
    fn inside(&mut self) -> &mut TripleReader<Record256> {
        &mut self.it
    }

    fn whole(variant: TripleReader<Record256>) -> TripleReader256 {
        TripleReader256 { it: variant }
    }

    ghost whole_of = { λ d. refl };
}

/// The writing side of a four-slot cell with records of 1,024 bytes.
#[derive(Drop)]
pub struct FourSlotWriter1024 {
    pub it: FourSlotWriter<Record1024>,
}

impl Wraps<FourSlotWriter<Record1024>> for FourSlotWriter1024 {
    ghost use Rattle.std.proofs.Common.{refl};

    ghost inner = { λ d. d.it };

    ghost side = { λ s. record { it = s } };

    #[inline]
    fn inside(&mut self) -> &mut FourSlotWriter<Record1024> {
        &mut self.it
    }

    fn whole(variant: FourSlotWriter<Record1024>) -> FourSlotWriter1024 {
        FourSlotWriter1024 { it: variant }
    }

    ghost whole_of = { λ d. refl };
}

/// The reading side of a four-slot cell with records of 1,024 bytes.
#[derive(Drop)]
pub struct FourSlotReader1024 {
    pub it: FourSlotReader<Record1024>,
}

impl Wraps<FourSlotReader<Record1024>> for FourSlotReader1024 {
    ghost use Rattle.std.proofs.Common.{refl};

    ghost inner = { λ d. d.it };

    ghost side = { λ s. record { it = s } };

    #[inline]
    fn inside(&mut self) -> &mut FourSlotReader<Record1024> {
        &mut self.it
    }

    fn whole(variant: FourSlotReader<Record1024>) -> FourSlotReader1024 {
        FourSlotReader1024 { it: variant }
    }

    ghost whole_of = { λ d. refl };
}

/// The writing side of a triple buffer with records of 1,024 bytes.
#[derive(Drop)]
pub struct TripleWriter1024 {
    pub it: TripleWriter<Record1024>,
}

impl Wraps<TripleWriter<Record1024>> for TripleWriter1024 {
    ghost use Rattle.std.proofs.Common.{refl};

    ghost inner = { λ d. d.it };

    ghost side = { λ s. record { it = s } };

    #[inline]
    fn inside(&mut self) -> &mut TripleWriter<Record1024> {
        &mut self.it
    }

    fn whole(variant: TripleWriter<Record1024>) -> TripleWriter1024 {
        TripleWriter1024 { it: variant }
    }

    ghost whole_of = { λ d. refl };
}

/// The reading side of a triple buffer with records of 1,024 bytes.
#[derive(Drop)]
pub struct TripleReader1024 {
    pub it: TripleReader<Record1024>,
}

impl Wraps<TripleReader<Record1024>> for TripleReader1024 {
    ghost use Rattle.std.proofs.Common.{refl};

    ghost inner = { λ d. d.it };

    ghost side = { λ s. record { it = s } };

    #[inline]
    fn inside(&mut self) -> &mut TripleReader<Record1024> {
        &mut self.it
    }

    fn whole(variant: TripleReader<Record1024>) -> TripleReader1024 {
        TripleReader1024 { it: variant }
    }

    ghost whole_of = { λ d. refl };
}

/// The writing side of a four-slot cell with records of 4,096 bytes.
#[derive(Drop)]
pub struct FourSlotWriter4096 {
    pub it: FourSlotWriter<Record4096>,
}

impl Wraps<FourSlotWriter<Record4096>> for FourSlotWriter4096 {
    ghost use Rattle.std.proofs.Common.{refl};

    ghost inner = { λ d. d.it };

    ghost side = { λ s. record { it = s } };

    #[inline]
    fn inside(&mut self) -> &mut FourSlotWriter<Record4096> {
        &mut self.it
    }

    fn whole(variant: FourSlotWriter<Record4096>) -> FourSlotWriter4096 {
        FourSlotWriter4096 { it: variant }
    }

    ghost whole_of = { λ d. refl };
}

/// The reading side of a four-slot cell with records of 4,096 bytes.
#[derive(Drop)]
pub struct FourSlotReader4096 {
    pub it: FourSlotReader<Record4096>,
}

impl Wraps<FourSlotReader<Record4096>> for FourSlotReader4096 {
    ghost use Rattle.std.proofs.Common.{refl};

    ghost inner = { λ d. d.it };

    ghost side = { λ s. record { it = s } };

    #[inline]
    fn inside(&mut self) -> &mut FourSlotReader<Record4096> {
        &mut self.it
    }

    fn whole(variant: FourSlotReader<Record4096>) -> FourSlotReader4096 {
        FourSlotReader4096 { it: variant }
    }

    ghost whole_of = { λ d. refl };
}

/// The writing side of a triple buffer with records of 4,096 bytes.
#[derive(Drop)]
pub struct TripleWriter4096 {
    pub it: TripleWriter<Record4096>,
}

impl Wraps<TripleWriter<Record4096>> for TripleWriter4096 {
    ghost use Rattle.std.proofs.Common.{refl};

    ghost inner = { λ d. d.it };

    ghost side = { λ s. record { it = s } };

    #[inline]
    fn inside(&mut self) -> &mut TripleWriter<Record4096> {
        &mut self.it
    }

    fn whole(variant: TripleWriter<Record4096>) -> TripleWriter4096 {
        TripleWriter4096 { it: variant }
    }

    ghost whole_of = { λ d. refl };
}

/// The reading side of a triple buffer with records of 4,096 bytes.
#[derive(Drop)]
pub struct TripleReader4096 {
    pub it: TripleReader<Record4096>,
}

impl Wraps<TripleReader<Record4096>> for TripleReader4096 {
    ghost use Rattle.std.proofs.Common.{refl};

    ghost inner = { λ d. d.it };

    ghost side = { λ s. record { it = s } };

    #[inline]
    fn inside(&mut self) -> &mut TripleReader<Record4096> {
        &mut self.it
    }

    fn whole(variant: TripleReader<Record4096>) -> TripleReader4096 {
        TripleReader4096 { it: variant }
    }

    ghost whole_of = { λ d. refl };
}

/// The writing side of a four-slot cell with records of 65,536 bytes.
#[derive(Drop)]
pub struct FourSlotWriter65536 {
    pub it: FourSlotWriter<Record65536>,
}

impl Wraps<FourSlotWriter<Record65536>> for FourSlotWriter65536 {
    ghost use Rattle.std.proofs.Common.{refl};

    ghost inner = { λ d. d.it };

    ghost side = { λ s. record { it = s } };

    #[inline]
    fn inside(&mut self) -> &mut FourSlotWriter<Record65536> {
        &mut self.it
    }

    fn whole(variant: FourSlotWriter<Record65536>) -> FourSlotWriter65536 {
        FourSlotWriter65536 { it: variant }
    }

    ghost whole_of = { λ d. refl };
}

/// The reading side of a four-slot cell with records of 65,536 bytes.
#[derive(Drop)]
pub struct FourSlotReader65536 {
    pub it: FourSlotReader<Record65536>,
}

impl Wraps<FourSlotReader<Record65536>> for FourSlotReader65536 {
    ghost use Rattle.std.proofs.Common.{refl};

    ghost inner = { λ d. d.it };

    ghost side = { λ s. record { it = s } };

    #[inline]
    fn inside(&mut self) -> &mut FourSlotReader<Record65536> {
        &mut self.it
    }

    fn whole(variant: FourSlotReader<Record65536>) -> FourSlotReader65536 {
        FourSlotReader65536 { it: variant }
    }

    ghost whole_of = { λ d. refl };
}

/// The writing side of a triple buffer with records of 65,536 bytes.
#[derive(Drop)]
pub struct TripleWriter65536 {
    pub it: TripleWriter<Record65536>,
}

impl Wraps<TripleWriter<Record65536>> for TripleWriter65536 {
    ghost use Rattle.std.proofs.Common.{refl};

    ghost inner = { λ d. d.it };

    ghost side = { λ s. record { it = s } };

    #[inline]
    fn inside(&mut self) -> &mut TripleWriter<Record65536> {
        &mut self.it
    }

    fn whole(variant: TripleWriter<Record65536>) -> TripleWriter65536 {
        TripleWriter65536 { it: variant }
    }

    ghost whole_of = { λ d. refl };
}

/// The reading side of a triple buffer with records of 65,536 bytes.
#[derive(Drop)]
pub struct TripleReader65536 {
    pub it: TripleReader<Record65536>,
}

impl Wraps<TripleReader<Record65536>> for TripleReader65536 {
    ghost use Rattle.std.proofs.Common.{refl};

    ghost inner = { λ d. d.it };

    ghost side = { λ s. record { it = s } };

    #[inline]
    fn inside(&mut self) -> &mut TripleReader<Record65536> {
        &mut self.it
    }

    fn whole(variant: TripleReader<Record65536>) -> TripleReader65536 {
        TripleReader65536 { it: variant }
    }

    ghost whole_of = { λ d. refl };
}

/// The writing side of a four-slot cell with records of 1,048,576 bytes.
#[derive(Drop)]
pub struct FourSlotWriter1048576 {
    pub it: FourSlotWriter<Record1048576>,
}

impl Wraps<FourSlotWriter<Record1048576>> for FourSlotWriter1048576 {
    ghost use Rattle.std.proofs.Common.{refl};

    ghost inner = { λ d. d.it };

    ghost side = { λ s. record { it = s } };

    #[inline]
    fn inside(&mut self) -> &mut FourSlotWriter<Record1048576> {
        &mut self.it
    }

    fn whole(variant: FourSlotWriter<Record1048576>) -> FourSlotWriter1048576 {
        FourSlotWriter1048576 { it: variant }
    }

    ghost whole_of = { λ d. refl };
}

/// The reading side of a four-slot cell with records of 1,048,576 bytes.
#[derive(Drop)]
pub struct FourSlotReader1048576 {
    pub it: FourSlotReader<Record1048576>,
}

impl Wraps<FourSlotReader<Record1048576>> for FourSlotReader1048576 {
    ghost use Rattle.std.proofs.Common.{refl};

    ghost inner = { λ d. d.it };

    ghost side = { λ s. record { it = s } };

    #[inline]
    fn inside(&mut self) -> &mut FourSlotReader<Record1048576> {
        &mut self.it
    }

    fn whole(variant: FourSlotReader<Record1048576>) -> FourSlotReader1048576 {
        FourSlotReader1048576 { it: variant }
    }

    ghost whole_of = { λ d. refl };
}

/// The writing side of a triple buffer with records of 1,048,576 bytes.
#[derive(Drop)]
pub struct TripleWriter1048576 {
    pub it: TripleWriter<Record1048576>,
}

impl Wraps<TripleWriter<Record1048576>> for TripleWriter1048576 {
    ghost use Rattle.std.proofs.Common.{refl};

    ghost inner = { λ d. d.it };

    ghost side = { λ s. record { it = s } };

    #[inline]
    fn inside(&mut self) -> &mut TripleWriter<Record1048576> {
        &mut self.it
    }

    fn whole(variant: TripleWriter<Record1048576>) -> TripleWriter1048576 {
        TripleWriter1048576 { it: variant }
    }

    ghost whole_of = { λ d. refl };
}

/// The reading side of a triple buffer with records of 1,048,576 bytes.
#[derive(Drop)]
pub struct TripleReader1048576 {
    pub it: TripleReader<Record1048576>,
}

impl Wraps<TripleReader<Record1048576>> for TripleReader1048576 {
    ghost use Rattle.std.proofs.Common.{refl};

    ghost inner = { λ d. d.it };

    ghost side = { λ s. record { it = s } };

    #[inline]
    fn inside(&mut self) -> &mut TripleReader<Record1048576> {
        &mut self.it
    }

    fn whole(variant: TripleReader<Record1048576>) -> TripleReader1048576 {
        TripleReader1048576 { it: variant }
    }

    ghost whole_of = { λ d. refl };
}

/// A place at a board over four-slot cells with records of 24 bytes.
#[derive(Drop)]
pub struct FourSlotPlace24 {
    pub it: FourSlotSeat24,
}

impl Wraps<FourSlotSeat24> for FourSlotPlace24 {
    ghost use Rattle.std.proofs.Common.{refl};

    ghost inner = { λ d. d.it };

    ghost side = { λ s. record { it = s } };

    #[inline]
    fn inside(&mut self) -> &mut FourSlotSeat24 {
        &mut self.it
    }

    fn whole(variant: FourSlotSeat24) -> FourSlotPlace24 {
        FourSlotPlace24 { it: variant }
    }

    ghost whole_of = { λ d. refl };
}

/// A place at a board over four-slot cells with records of 256 bytes.
#[derive(Drop)]
pub struct FourSlotPlace256 {
    pub it: FourSlotSeat256,
}

impl Wraps<FourSlotSeat256> for FourSlotPlace256 {
    ghost use Rattle.std.proofs.Common.{refl};

    ghost inner = { λ d. d.it };

    ghost side = { λ s. record { it = s } };

    #[inline]
    fn inside(&mut self) -> &mut FourSlotSeat256 {
        &mut self.it
    }

    fn whole(variant: FourSlotSeat256) -> FourSlotPlace256 {
        FourSlotPlace256 { it: variant }
    }

    ghost whole_of = { λ d. refl };
}

/// A place at a board over four-slot cells with records of 4,096 bytes.
#[derive(Drop)]
pub struct FourSlotPlace4096 {
    pub it: FourSlotSeat4096,
}

impl Wraps<FourSlotSeat4096> for FourSlotPlace4096 {
    ghost use Rattle.std.proofs.Common.{refl};

    ghost inner = { λ d. d.it };

    ghost side = { λ s. record { it = s } };

    #[inline]
    fn inside(&mut self) -> &mut FourSlotSeat4096 {
        &mut self.it
    }

    fn whole(variant: FourSlotSeat4096) -> FourSlotPlace4096 {
        FourSlotPlace4096 { it: variant }
    }

    ghost whole_of = { λ d. refl };
}

/// A place at a board over triple buffers with records of 24 bytes.
#[derive(Drop)]
pub struct TriplePlace24 {
    pub it: TripleSeat24,
}

impl Wraps<TripleSeat24> for TriplePlace24 {
    ghost use Rattle.std.proofs.Common.{refl};

    ghost inner = { λ d. d.it };

    ghost side = { λ s. record { it = s } };

    #[inline]
    fn inside(&mut self) -> &mut TripleSeat24 {
        &mut self.it
    }

    fn whole(variant: TripleSeat24) -> TriplePlace24 {
        TriplePlace24 { it: variant }
    }

    ghost whole_of = { λ d. refl };
}

/// A place at a board over triple buffers with records of 256 bytes.
#[derive(Drop)]
pub struct TriplePlace256 {
    pub it: TripleSeat256,
}

impl Wraps<TripleSeat256> for TriplePlace256 {
    ghost use Rattle.std.proofs.Common.{refl};

    ghost inner = { λ d. d.it };

    ghost side = { λ s. record { it = s } };

    #[inline]
    fn inside(&mut self) -> &mut TripleSeat256 {
        &mut self.it
    }

    fn whole(variant: TripleSeat256) -> TriplePlace256 {
        TriplePlace256 { it: variant }
    }

    ghost whole_of = { λ d. refl };
}

/// A place at a board over triple buffers with records of 4,096 bytes.
#[derive(Drop)]
pub struct TriplePlace4096 {
    pub it: TripleSeat4096,
}

impl Wraps<TripleSeat4096> for TriplePlace4096 {
    ghost use Rattle.std.proofs.Common.{refl};

    ghost inner = { λ d. d.it };

    ghost side = { λ s. record { it = s } };

    #[inline]
    fn inside(&mut self) -> &mut TripleSeat4096 {
        &mut self.it
    }

    fn whole(variant: TripleSeat4096) -> TriplePlace4096 {
        TriplePlace4096 { it: variant }
    }

    ghost whole_of = { λ d. refl };
}

/// The writing side of a four-slot cell with records of 128 bytes.
#[derive(Drop)]
pub struct FourSlotWriter128 {
    pub it: FourSlotWriter<Record128>,
}

impl Wraps<FourSlotWriter<Record128>> for FourSlotWriter128 {
    ghost use Rattle.std.proofs.Common.{refl};

    ghost inner = { λ d. d.it };

    ghost side = { λ s. record { it = s } };

    #[inline]
    fn inside(&mut self) -> &mut FourSlotWriter<Record128> {
        &mut self.it
    }

    fn whole(variant: FourSlotWriter<Record128>) -> FourSlotWriter128 {
        FourSlotWriter128 { it: variant }
    }

    ghost whole_of = { λ d. refl };
}

/// The reading side of a four-slot cell with records of 128 bytes.
#[derive(Drop)]
pub struct FourSlotReader128 {
    pub it: FourSlotReader<Record128>,
}

impl Wraps<FourSlotReader<Record128>> for FourSlotReader128 {
    ghost use Rattle.std.proofs.Common.{refl};

    ghost inner = { λ d. d.it };

    ghost side = { λ s. record { it = s } };

    #[inline]
    fn inside(&mut self) -> &mut FourSlotReader<Record128> {
        &mut self.it
    }

    fn whole(variant: FourSlotReader<Record128>) -> FourSlotReader128 {
        FourSlotReader128 { it: variant }
    }

    ghost whole_of = { λ d. refl };
}

/// The writing side of a triple buffer with records of 128 bytes.
#[derive(Drop)]
pub struct TripleWriter128 {
    pub it: TripleWriter<Record128>,
}

impl Wraps<TripleWriter<Record128>> for TripleWriter128 {
    ghost use Rattle.std.proofs.Common.{refl};

    ghost inner = { λ d. d.it };

    ghost side = { λ s. record { it = s } };

    #[inline]
    fn inside(&mut self) -> &mut TripleWriter<Record128> {
        &mut self.it
    }

    fn whole(variant: TripleWriter<Record128>) -> TripleWriter128 {
        TripleWriter128 { it: variant }
    }

    ghost whole_of = { λ d. refl };
}

/// The reading side of a triple buffer with records of 128 bytes.
#[derive(Drop)]
pub struct TripleReader128 {
    pub it: TripleReader<Record128>,
}

impl Wraps<TripleReader<Record128>> for TripleReader128 {
    ghost use Rattle.std.proofs.Common.{refl};

    ghost inner = { λ d. d.it };

    ghost side = { λ s. record { it = s } };

    #[inline]
    fn inside(&mut self) -> &mut TripleReader<Record128> {
        &mut self.it
    }

    fn whole(variant: TripleReader<Record128>) -> TripleReader128 {
        TripleReader128 { it: variant }
    }

    ghost whole_of = { λ d. refl };
}
