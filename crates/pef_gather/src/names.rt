ghost use Rattle.std.specs.Prelude.{◌≡◌};
ghost use Rattle.pef_gather.specs.Names.{stem};

use memchr::memrchr;

/// Returns a file's name without its extension: up to the last dot, if that isn't the first byte.
pub(crate) fn stem<'a>(name: &'a [u8]) -> &'a [u8]
    ensures { result.now ≡ stem name.entry.now }
{
    match memrchr(b'.', name) {
        Some(last) => {
            if last == 0 {
                return name;
            }
            let (front, _) = name.split_at(last);
            front
        }
        None => name,
    }
}
