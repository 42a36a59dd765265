//! Laws of texts of schedules, each the proved contract of a function that does nothing.
ghost use Rattle.schedule_files.specs.Laws.{ArrayIsTold, TellsOne, WordsAreTold};

/// Two schedules that one text holds are equal.
pub fn a_text_tells_one_schedule()
    ensures { TellsOne }
{}

/// A text that ends with what `put_schedule` adds and a line feed holds that schedule, if the text
/// has at most `MOST_BYTES` bytes.
pub fn written_words_are_told()
    ensures { WordsAreTold }
{}

/// The JSON array of a schedule and a line feed tell the schedule, if they have at most
/// `MOST_BYTES` bytes.
pub fn a_written_array_is_told()
    ensures { ArrayIsTold }
{}
