// The lines of a text.
ghost use Rattle.std.specs.Prelude.{◌≡◌, ◌<◌, ◌≤◌, length};
ghost use Rattle.std.specs.Iterator.{YieldsFirstRef, item_count};
ghost use Rattle.units.specs.Text.{line_feed};
ghost use Rattle.script.specs.Text.{span, FirstLine, lines_of, lines_left};

// How many bytes the first line of a text has: those before the next line feed, or all.
fn line_length(text: &[u8]) -> usize
    ensures { (result ≡ span line_feed text.now) × (result ≤ length text.now) }
{
    text.iter().position(|b| *b == b'\n').unwrap_or(text.len())
}

// Where the first line of a text from a place on ends.
pub fn line_end(text: &[u8], at: usize) -> usize
    requires { at < length text.now }
    ensures { FirstLine text.now at result }
{
    at + line_length(&text[at..])
}

// The lines of a text, from the first on.
#[derive(Drop)]
pub struct Lines<'a> {
    rest: &'a [u8],
}

impl<'a> Lines<'a> {
    pub fn new(text: &'a [u8]) -> Lines<'a>
        ensures { lines_left result ≡ lines_of text.now }
    {
        Lines { rest: text }
    }
}

impl<'a> Iterator for Lines<'a> {
    type Item = &'a [u8];

    ghost next_gives = { YieldsFirstRef lines_left };

    ghost remaining = { item_count lines_left };

    #[tactic(auto, unfolding(crate::specs::Text::cut_at))]
    fn next(&mut self) -> Option<&'a [u8]> {
        let text = self.rest;
        if text.is_empty() {
            return None;
        }
        let end = line_end(text, 0);
        self.rest = text.get(end + 1..).unwrap_or(&[]);
        Some(&text[..end])
    }
}
