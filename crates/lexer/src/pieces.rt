// The pieces of a text between separators, each with its place.
ghost use Rattle.std.specs.Prelude.{◌≡◌, ◌+◌, ◌^◌, ◌<◌, length};

// A part of a text, and the number of its first byte there. It is no `Word`, whose fields anyone may set: the place and the length of a piece fit.
#[derive(Clone, Copy)]
pub struct Piece<'a> {
    pub place: usize,
    pub text: &'a [u8],
    pub ghost fits: { place + length text.now < 2 ^ 64 },
}

impl<'a> Piece<'a> {
    ghost use Rattle.lexer.specs.Text.{split, placed};
    ghost use Rattle.lexer.specs.Pieces.{pieces_left};

    // The whole of a text.
    pub fn whole(text: &'a [u8]) -> Self
        ensures place { result.place ≡ 0 }
        ensures text { result.text.now ≡ text.now }
    {
        Piece { place: 0, text }
    }

    // Its pieces between separators, one more than there are separators.
    pub fn split(self, separator: u8) -> Pieces<'a>
        ensures { pieces_left result ≡ placed self.entry.place (split separator self.entry.text.now) }
    {
        Pieces {
            separator,
            rest: Some(self),
        }
    }
}

// The pieces that are to come.
#[derive(Drop)]
pub struct Pieces<'a> {
    separator: u8,
    // What is left of the text. It is nothing after the last piece, while an empty rest is one piece more.
    rest: Option<Piece<'a>>,
}

impl<'a> Iterator for Pieces<'a> {
    ghost use Rattle.std.specs.Iterator.{YieldsFirstBy, item_count};
    ghost use Rattle.lexer.specs.Pieces.{piece_at, pieces_left};

    type Item = Piece<'a>;

    ghost next_gives = { YieldsFirstBy piece_at pieces_left };

    ghost remaining = { item_count pieces_left };

    fn next(&mut self) -> Option<Piece<'a>> {
        let piece = self.rest.take()?;
        let separator = self.separator;
        match piece.text.iter().position(|b| *b == separator) {
            Some(end) => {
                self.rest = Some(Piece {
                    place: piece.place + end + 1,
                    text: &piece.text[end + 1..],
                });
                Some(Piece {
                    place: piece.place,
                    text: &piece.text[..end],
                })
            }
            None => Some(piece),
        }
    }
}
