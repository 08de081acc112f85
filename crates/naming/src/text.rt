// A reason as a line of text: `06 02 writing`, `06 09 both draining`, `0a 02`.
ghost use Rattle.std.specs.Prelude.{◌≡◌, ◌+◌, ◌≤◌, length};
ghost use Rattle.naming.specs.Text.{two_digits, ways_text, drains_text, named_text, text_of, joined_to};

use crate::{Reason, Somebody};

// A text: `size` bytes, and behind them 0.
#[derive(Clone, Copy)]
pub struct Text {
    pub bytes: [u8; 23],
    pub size: usize,
}

// The two lowest digits of a number.
fn two_digits(n: u32) -> [u8; 2]
    ensures { result ≡ two_digits n }
{
    let high = digits::character((n / 16 % 16) as u8);
    let low = digits::character((n % 16) as u8);
    [high, low]
}

// A word comes behind the text.
fn join(text: &mut Text, word: &[u8])
    requires { text.old.size + length word.now ≤ 23 }
    ensures { text.new ≡ joined_to text.old word.now }
{
    let size = text.size + word.len();
    text.bytes[text.size..size].copy_from_slice(word);
    text.size = size;
}

// How somebody owns an instrument comes behind the text.
fn join_ways(text: &mut Text, reads: bool, writes: bool)
    requires { text.old.size + 8 ≤ 23 }
    ensures { text.new ≡ joined_to text.old (ways_text reads writes) }
{
    if reads & writes {
        return join(text, b" both");
    }
    if reads {
        return join(text, b" reading");
    }
    if writes {
        return join(text, b" writing");
    }
}

// That somebody drains comes behind the text, where it does.
fn join_draining(text: &mut Text, drains: bool)
    requires { text.old.size + 9 ≤ 23 }
    ensures { text.new ≡ joined_to text.old (drains_text drains) }
{
    if drains {
        join(text, b" draining");
    }
}

// Who is named comes behind the text.
fn join_name(text: &mut Text, somebody: Somebody)
    requires { text.old.size ≤ 2 }
    ensures { text.new ≡ joined_to text.old (named_text somebody) }
{
    let number = two_digits(somebody.number);
    join(text, b" ");
    join(text, &number);
    join_ways(text, somebody.reads, somebody.writes);
    join_draining(text, somebody.drains);
}

// Two digits of the answer; where somebody is named a space and two digits of its number; where that one owns an instrument, for 6, a space and `reading`,
// `writing` or `both`, and where it drains, a space and `draining`; 0a.
pub fn text_of(reason: Reason) -> Text
    ensures { result ≡ text_of reason }
{
    let mut text = Text {
        bytes: [0; 23],
        size: 0,
    };
    let digits = two_digits(u32::from(reason.answer));
    join(&mut text, &digits);
    if let Some(somebody) = reason.names {
        join_name(&mut text, somebody);
    }
    join(&mut text, b"\n");
    text
}
