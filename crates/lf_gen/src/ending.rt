//! The end of a text.
ghost use Rattle.std.specs.Prelude.{◌≡◌, ◌-◌, List, drop, length};
ghost use Rattle.std.specs.Str.{IsCharBoundary};
ghost use Rattle.lf_base.specs.Lines.{lines_text};
ghost use Rattle.lf_base.specs.Names.{Bytes};
ghost use Rattle.lf_gen.specs.Lines.{AreLines, last_lines};
ghost use Rattle.lf_gen.specs.views.Ends.{BeginsLastLine, IsWithoutFeed};

/// The end of a text that holds its last two lines; the whole text where it has no more than two.
pub fn last_two_lines(text: &str) -> &str
    ensures end { result.now ≡ last_lines 2 text.now }
    ensures lines { (lines : List Bytes) → AreLines lines → text.now ≡ lines_text lines → result.now ≡ lines_text (drop (length lines - 2) lines) }
{
    let last = last_line(text);
    let before = last_line(&text[..last]);
    &text[before..]
}

/// Where the last line of a text begins, in bytes from its start.
fn last_line(text: &str) -> usize
    ensures boundary { IsCharBoundary text.now result }
    ensures line { BeginsLastLine text.now result }
{
    match without_feed(text).rfind('\n') {
        Some(feed) => feed + 1,
        None => 0,
    }
}

/// A text without the line feed at its end, if there is one.
fn without_feed(text: &str) -> &str
    ensures { IsWithoutFeed text.now result.now }
{
    match text.strip_suffix('\n') {
        Some(front) => front,
        None => text,
    }
}
