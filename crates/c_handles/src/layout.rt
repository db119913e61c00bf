//! What crosses to C has the sizes and the alignment that the header has, here the records'.

use crate::record::{
    Record8, Record24, Record64, Record128, Record256, Record1024, Record4096, Record65536,
    Record1048576,
};

const _: () = prove!(size_of::<Record8>() == 8);

const _: () = prove!(size_of::<Record24>() == 24);

const _: () = prove!(size_of::<Record64>() == 64);

const _: () = prove!(size_of::<Record128>() == 128);

const _: () = prove!(size_of::<Record256>() == 256);

const _: () = prove!(size_of::<Record1024>() == 1024);

const _: () = prove!(size_of::<Record4096>() == 4096);

const _: () = prove!(size_of::<Record65536>() == 65536);

const _: () = prove!(size_of::<Record1048576>() == 1048576);

const _: () = prove!(align_of::<Record8>() == 8);

const _: () = prove!(align_of::<Record24>() == 8);

const _: () = prove!(align_of::<Record64>() == 8);

const _: () = prove!(align_of::<Record128>() == 8);

const _: () = prove!(align_of::<Record256>() == 8);

const _: () = prove!(align_of::<Record1024>() == 8);

const _: () = prove!(align_of::<Record4096>() == 8);

const _: () = prove!(align_of::<Record65536>() == 8);

const _: () = prove!(align_of::<Record1048576>() == 8);

/// What may go to another thread.
pub(crate) fn crosses<T: Send>() {}
