// The forms of an order's record: the mark and the length of each.
ghost use Rattle.std.specs.Prelude.{◌≡◌};
ghost use Rattle.record.specs.Record.{order_bytes};
ghost use Rattle.record.specs.Names.{form_of};

// The mark that a record of the new form begins with, and one of the old.
pub const NEW_MARK: [u8; 2] = *b"OC";

pub const OLD_MARK: [u8; 2] = *b"OB";

// The form of older books, and that of all calls but the conversions.
#[derive(Clone, Copy)]
pub enum RecordForm {
    Old,
    New,
}

impl RecordForm {
    // How many bytes a record has.
    pub fn bytes(self) -> usize
        ensures { result ≡ order_bytes (form_of self) }
    {
        match self {
            RecordForm::Old => 32,
            RecordForm::New => 40,
        }
    }

    // The mark that it begins with.
    pub fn mark(self) -> [u8; 2]
        ensures { result ≡ (form_of self).layout.mark }
    {
        match self {
            RecordForm::Old => OLD_MARK,
            RecordForm::New => NEW_MARK,
        }
    }
}
