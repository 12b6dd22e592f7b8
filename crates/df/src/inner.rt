// INNER: the descents of DF text, into eight children in label order, the levels left falling.
ghost use Rattle.std.specs.Prelude.{◌≡◌};
ghost use Rattle.df.specs.Inner.{byte_of, HeadOf};

pub mod reading;
pub mod spelling;

// How the text of a cell begins: a gray cell opens, a leaf has the letter of its colour.
#[derive(Clone, Copy, PartialEq)]
pub enum Head {
    Open,
    Black,
    White,
}

impl Head {
    // The byte of a head.
    pub fn byte(self) -> u8
        ensures { result ≡ byte_of self }
    {
        match self {
            Head::Open => b'(',
            Head::Black => b'B',
            Head::White => b'W',
        }
    }

    // The head that a byte is; a byte that is none stands in no text.
    pub fn of(byte: u8) -> Option<Head>
        ensures { HeadOf byte result }
    {
        match byte {
            b'(' => Some(Head::Open),
            b'B' => Some(Head::Black),
            b'W' => Some(Head::White),
            _ => None,
        }
    }
}
