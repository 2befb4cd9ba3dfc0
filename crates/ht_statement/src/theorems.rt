//! Theorems of reading: what is written is read, and what is read can be written.
ghost use Rattle.ht_statement.specs.StatementText.{NormalTextIsRead, NormalTextIsOneLine, StatedIsSound};

/// The normal text of a statement, as a writer of netlists gives it, is a line that states it. All its bytes are
/// printable or spaces.
pub fn normal_text_is_read()
    ensures states { NormalTextIsRead }
    ensures one_line { NormalTextIsOneLine }
{}

/// What a line states has names of 1 to 255 printable bytes and, where it is a gate, as many arguments as its kind may
/// have.
pub fn stated_is_sound()
    ensures { StatedIsSound }
{}
