//! The lines of an image.

ghost use Rattle.std.specs.Prelude.{◌≡◌, ◌+◌, ◌*◌, ◌≤◌, length, vec_len};
ghost use Rattle.data_cache.specs.CacheLists.{line_in};

use asc_base::Line;
use elf_loader::Image;

/// The bytes of a line of an image.
pub(crate) fn line_of(image: &Image, line: u32) -> Line
    requires { 64 * line + 64 ≤ vec_len image.now.bytes }
    ensures bytes { result.0 ≡ line_in image.now.bytes.items line }
    ensures whole { length result.0 ≡ 64 }
{
    let start = 64 * line as usize;
    let mut bytes = [0; 64];
    bytes.copy_from_slice(&image.bytes[start..start + 64]);
    Line(bytes)
}

/// An image has as many bytes as its vector counts. The call does nothing.
pub(crate) fn are_counted(image: &Image)
    ensures { length image.now.bytes.items ≡ vec_len image.now.bytes }
{}
