ghost use Rattle.std.specs.Prelude.{◌≡◌};
ghost use Rattle.script_text.specs.Parsing.{rule_number};

/// The rules of the grammar, from 1 on in this order.
#[derive(Clone, Copy)]
pub enum Rule {
    /// A byte outside 32 to 126.
    Byte,
    /// An unknown first word, or a number of words that doesn't fit it.
    Words,
    /// A cluster.
    Cluster,
    /// A number.
    Number,
    /// A name or key.
    Name,
    /// A list of families or tables, or a cell; two cells of one column; more than 64 cells.
    Parts,
    /// A kind, a state or a call.
    Kind,
    /// The repeated values up to this line stand for too many bytes.
    Repeats,
    /// An input of `live` without a line `--`, or with a second one.
    Divider,
    /// A command that the lines after `--` may not hold.
    Behind,
}

impl Rule {
    pub fn number(&self) -> u16
        ensures { result ≡ rule_number self.now }
    {
        match self {
            Rule::Byte => 1,
            Rule::Words => 2,
            Rule::Cluster => 3,
            Rule::Number => 4,
            Rule::Name => 5,
            Rule::Parts => 6,
            Rule::Kind => 7,
            Rule::Repeats => 8,
            Rule::Divider => 9,
            Rule::Behind => 10,
        }
    }
}
