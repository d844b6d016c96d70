ghost use Rattle.std.specs.Prelude.{◌≡◌, decimal, nat_lt, IsUtf8};
ghost use Rattle.serde_json.specs.Written.{comma_if};

use itoa::Buffer;
use lists::Text;
use text_writer::Pieces;

/// Adds the comma before the element with a number: before the first there is none.
pub fn push_comma<P: Pieces>(text: &mut P, number: usize)
    ensures { P.pushes text.old (comma_if (nat_lt 0 number)) text.new }
{
    if number > 0 {
        text.push_str(",");
    }
}

pub fn push_number<P: Pieces>(text: &mut P, number: u64)
    ensures { P.pushes text.old (decimal number) text.new }
{
    let mut buffer = Buffer::new();
    text.push_str(buffer.format(number));
}

/// The text as it is: UTF-8, as any `&str`.
pub fn utf8_text(text: Text) -> Text
    ensures same { result ≡ text }
    ensures utf8 { IsUtf8 text }
{
    let _: &str = text.as_str();
    text
}
