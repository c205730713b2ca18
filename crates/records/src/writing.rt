// Writing: a run of bytes put over those at a place, all of it or nothing.
ghost use Rattle.std.specs.Prelude.{◌≡◌};
ghost use Rattle.records.specs.Writing.{fits, put_at};

// Puts the bytes over those at the place, and says that they fit; where they do not, nothing changes.
pub fn put(out: &mut [u8], at: usize, bytes: &[u8]) -> bool
    ensures answer { result ≡ fits out.old at bytes.now }
    ensures left { out.new ≡ put_at out.old at bytes.now }
{
    if at > out.len() || bytes.len() > out.len() - at {
        return false;
    }
    out[at..at + bytes.len()].copy_from_slice(bytes);
    true
}
