//! The records that C passes. It owes no law of them.
ghost use Rattle.std.specs.Prelude.{true};
ghost use Rattle.std.proofs.Common.{rules};

use board_live::RecordLaw;
use c_boards::Free;

/// A record of 8 bytes.
#[repr(C)]
#[derive(Clone, Copy)]
pub struct Record8 {
    pub words: [u64; 1],
}

/// A record of 24 bytes.
#[repr(C)]
#[derive(Clone, Copy, PartialEq, Eq)]
pub struct Record24 {
    pub words: [u64; 3],
}

/// A record of 64 bytes.
#[repr(C)]
#[derive(Clone, Copy)]
pub struct Record64 {
    pub words: [u64; 8],
}

/// A record of 128 bytes.
#[repr(C)]
#[derive(Clone, Copy)]
pub struct Record128 {
    pub words: [u64; 16],
}

/// A record of 256 bytes.
#[repr(C)]
#[derive(Clone, Copy, PartialEq, Eq)]
pub struct Record256 {
    pub words: [u64; 32],
}

/// A record of 1,024 bytes.
#[repr(C)]
#[derive(Clone, Copy)]
pub struct Record1024 {
    pub words: [u64; 128],
}

/// A record of 4,096 bytes.
#[repr(C)]
#[derive(Clone, Copy, PartialEq, Eq)]
pub struct Record4096 {
    pub words: [u64; 512],
}

/// A record of 65,536 bytes.
#[repr(C)]
#[derive(Clone, Copy)]
pub struct Record65536 {
    pub words: [u64; 8192],
}

/// A record of 1,048,576 bytes.
#[repr(C)]
#[derive(Clone, Copy)]
pub struct Record1048576 {
    pub words: [u64; 131072],
}

impl RecordLaw for Record24 {
    ghost obeys = { λ _. true };

    fn fits(&self) -> bool {
        true
    }
}

impl Free for Record24 {
    ghost free = { λ _. Prim.search rules };
}

impl RecordLaw for Record256 {
    ghost obeys = { λ _. true };

    fn fits(&self) -> bool {
        true
    }
}

impl Free for Record256 {
    ghost free = { λ _. Prim.search rules };
}

impl RecordLaw for Record4096 {
    ghost obeys = { λ _. true };

    fn fits(&self) -> bool {
        true
    }
}

impl Free for Record4096 {
    ghost free = { λ _. Prim.search rules };
}
