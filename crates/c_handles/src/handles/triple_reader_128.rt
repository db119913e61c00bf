// made by c/exports.py
//! What C has of the reading side of a triple buffer with records of 128 bytes.
ghost use Rattle.std.specs.Prelude.{◌≡◌, ◌≢◌, Bool, true, false};
ghost use Rattle.c_handles.specs.Loosely.{loosely};
ghost use Rattle.c_handles.specs.contracts.side.TripleReader128 as sides;
ghost use Rattle.c_handles.specs.declared.side.TripleReader128.{TripleReader128};

use crate::layout::crosses;
use crate::parts::Parts;
use crate::side::TripleReader128;
use c_registers::{Hand, Holds};
use std::alloc::Global;
use std::marker::Model;

/// A box of the side whose type names no other type, or nothing.
#[repr(C)]
pub struct Loose {
    at: *mut u8,
    pub ghost full: { Bool },
    pub ghost side: { TripleReader128 } by { sides.the_row.coded },
}

impl Model for Loose {
    ghost also_owns = { λ l. loosely sides.the_row l.full l.at l.side };
}

impl Loose {
    /// Takes the box out.
    fn take(&mut self, alloc: Global) -> Parts<TripleReader128, Global>
        requires { self.old.full ≡ true }
        ensures { (self.new.full ≡ false) × (result.value ≡ self.old.side) }
    {
        let at = self.at;
        self.at = std::ptr::null_mut();
        Parts {
            ptr: at as *mut TripleReader128,
            alloc,
        }
    }

    /// Puts a box where nothing is.
    fn put(&mut self, parts: Parts<TripleReader128, Global>)
        requires { self.old.full ≡ false }
        ensures { (self.new.full ≡ true) × (self.new.side ≡ parts.value) }
    {
        let Parts { ptr, alloc: _ } = parts;
        self.at = ptr as *mut u8;
    }
}

impl Holds<TripleReader128> for Loose {
    ghost use Rattle.std.proofs.Common.{refl};

    ghost full = { λ l. l.full };

    ghost side = { λ l. l.side };

    ghost having = { λ l s. record { at = l.at; full = l.full; side = s } };

    #[inline]
    fn reach(&mut self) -> &mut TripleReader128 {
        unsafe { &mut *(self.at as *mut TripleReader128) }
    }

    ghost stays = { λ l s. refl };

    ghost has = { λ l s. refl };
}

unsafe impl Send for Loose {}

/// The side behind a pointer where `live` is 42, else nothing of this type.
#[repr(C)]
pub struct Handle {
    pub live: u64,
    pub loose: Loose,
    ghost held: { live ≡ 42 → loose.full ≡ true },
    ghost gone: { live ≡ 0 → loose.full ≡ false },
}

impl Hand<TripleReader128> for Handle {
    ghost CODE = { 42 };

    const CODE: u64 = 42;

    ghost live = { λ h. h.live };

    ghost side = { λ h. h.loose.side };

    fn live(&self) -> u64 {
        self.live
    }

    fn take(&mut self, alloc: Global) -> Box<TripleReader128> {
        self.live = 0;
        self.loose.take(alloc).into_box()
    }

    fn put(&mut self, boxed: Box<TripleReader128>)
        requires { self.old.live ≡ 0 }
        ensures { (self.new.live ≡ 42) × (self.new.loose.side ≡ boxed.value) }
    {
        self.loose.put(Parts::of(boxed));
        self.live = 42;
    }
}

const _: () = prove!(size_of::<Handle>() == 16);

const _: () = prove!(align_of::<Handle>() == 8);

/// A handle may go to another thread: C rests on this.
pub fn handles_cross() {
    crosses::<Handle>();
}
