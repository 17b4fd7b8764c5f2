// The card program: reads n, round limit and image as little-endian words from standard input, and writes the card to standard output.
#![tactic(auto)]

ghost use Rattle.std.specs.Prelude.{◌≡◌, ◌+◌, length, IfSome, OnOk};
ghost use Rattle.std.specs.Io.KnownBytes.{Appends};
ghost use Rattle.definitions.specs.Card.{most_input, card};

use std::io::{self, Read, Write};

// Room for one byte more than an input may have, so that a longer one is seen.
fn input_room() -> [u8; card::MOST_INPUT + 1]
    ensures { length result ≡ most_input + 1 }
{
    [0u8; card::MOST_INPUT + 1]
}

// Room for the longest text.
fn text_room() -> [u8; card::MOST_TEXT] {
    [0u8; card::MOST_TEXT]
}

// Writes the card for all bytes of a reader. Of an input that is too long it reads as many as show that.
fn write_card<R: Read, W: Write>(from: &mut R, out: &mut W) -> io::Result<()>
    ensures { OnOk result (IfSome (R.remaining from.old)
        (λ bytes. Appends (W.contents out.old) (W.contents out.new) (card bytes))) }
{
    let mut input = input_room();
    let mut text = text_room();
    let got = streams::read_full(from, &mut input)?;
    let end = card::card_text(&input[..got], &mut text);
    out.write_all(&text[..end])
}

fn main(rt: HostRuntime) -> io::Result<()> {
    write_card(&mut rt.reader(), &mut io::writer(&rt))
}
