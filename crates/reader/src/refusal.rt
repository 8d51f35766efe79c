ghost use Rattle.std.specs.Prelude.{◌≡◌};
ghost use Rattle.reader.specs.Refusals.{layer_number, layer_of, number_of};

/// Why a text, a scene or a call is refused. The numbers are those that the program prints.
#[derive(Clone, Copy, Debug, PartialEq, Eq)]
pub enum Refusal {
    /// The text has more than 32,768 bytes.
    TextTooLong = 1,
    /// A table that was lent has too few rows.
    TooFewRows = 2,
    /// The line has a byte that no line may have, or a quote that holds a tab or does not close.
    UnreadableWord = 3,
    /// The line has no form that is allowed there.
    NoSuchForm = 4,
    /// A number or a register is outside its range.
    OutOfRange = 5,
    /// A field, a method or a label exists already, or a label is a mnemonic.
    AlreadyDefined = 6,
    /// The table is full.
    TableFull = 7,
    /// At the method's end, a label marks nothing.
    LabelMarksNothing = 8,
    /// At the method's end, a jump's label is unknown.
    UnknownLabel = 9,
    /// At the class's end, an instruction's field or method is unknown.
    UnknownMember = 10,
    /// The text ends before the class does.
    EndMissing = 11,
    /// There was no main.
    MainMissing = 12,
    /// A method does not pass the check.
    DoesNotPass = 13,
    /// The show is not running.
    NotRunning = 14,
}

/// Which part of the work a refusal belongs to, in the order in which a scene meets them.
#[derive(Clone, Copy, Debug, PartialEq, Eq)]
pub enum Layer {
    Entry = 1,
    Word = 2,
    Line = 3,
    Table = 4,
    Link = 5,
    Check = 6,
    Show = 7,
}

impl Refusal {
    /// The number that is printed.
    // A method and no `From`, here and at `Layer`: the number is what a refusal is called, not a refusal in another form.
    pub fn number(self) -> u8
        ensures { result ≡ number_of self }
    {
        self as u8
    }

    /// The layer that the refusal belongs to.
    pub fn layer(self) -> Layer
        ensures { result ≡ layer_of self }
    {
        match self {
            Refusal::TextTooLong | Refusal::TooFewRows => Layer::Entry,
            Refusal::UnreadableWord => Layer::Word,
            Refusal::NoSuchForm | Refusal::OutOfRange => Layer::Line,
            Refusal::AlreadyDefined | Refusal::TableFull => Layer::Table,
            Refusal::LabelMarksNothing
            | Refusal::UnknownLabel
            | Refusal::UnknownMember
            | Refusal::EndMissing
            | Refusal::MainMissing => Layer::Link,
            Refusal::DoesNotPass => Layer::Check,
            Refusal::NotRunning => Layer::Show,
        }
    }
}

impl Layer {
    /// The layer's number.
    pub fn number(self) -> u8
        ensures { result ≡ layer_number self }
    {
        self as u8
    }
}
