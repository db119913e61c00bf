//! The bucket of a text.
ghost use Rattle.std.specs.Prelude.{◌≡◌, ◌<◌, length};
ghost use Rattle.kept_lines.specs.inner.Linked.{bucket_of, hash_of, mixed};

/// The bucket of a text, among so many.
pub(crate) fn bucket_of(text: &[u8], count: usize) -> usize
    requires { 0 < count }
    ensures is { result ≡ bucket_of count text.now }
    ensures below { result < count }
{
    (hash_of(text) % count as u64) as usize
}

fn hash_of(text: &[u8]) -> u64
    ensures { result ≡ hash_of text.now }
{
    let mut hash = 0;
    for byte in text {
        hash = mixed(hash, *byte);
    }
    hash
}

/// A hash with one more byte, as that of G. Fowler, L. Noll and K. Vo, but with a sum.
fn mixed(hash: u64, byte: u8) -> u64
    ensures { result ≡ mixed hash byte }
{
    hash.wrapping_mul(0x100_0000_01b3)
        .wrapping_add(u64::from(byte))
}
