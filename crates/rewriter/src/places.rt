// Where the stubs stand.
ghost use Rattle.std.specs.Prelude.{◌≡◌, ◌<◌, ◌^◌, ◌%◌};
ghost use Rattle.site_spec.specs.Places.{text_at, stub_at};

use exec_image::Image;

/// The bytes of the mark, and of a stub.
const MARK_SIZE: u32 = 16;

const STUB_SIZE: u32 = 44;

/// The address of the stub of the line with this number.
pub fn stub_place(image: &Image, number: usize) -> u32
    requires { number < 32 }
    ensures exact { result ≡ stub_at (text_at image.now) number }
    ensures aligned { result % 4 ≡ 0 }
    ensures low { result < 2 ^ 31 }
{
    image.text_at() + MARK_SIZE + STUB_SIZE * number as u32
}
