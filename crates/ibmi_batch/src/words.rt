//! The words of the command line.
ghost use Rattle.std.specs.Prelude.{◌≡◌, map, string_bytes};
ghost use Rattle.ibmi_batch.specs.Words.{are_command_words, are_display_words, are_format_words, are_job_words, are_run_words, are_serial_words, are_words_of, names_folder};

/// Whether the words are a command and a folder.
pub fn are_command_words(words: &[String]) -> bool
    ensures { result ≡ are_command_words (map string_bytes words.now) }
{
    are_job_words(words) || are_display_words(words) || are_format_words(words)
}

/// Whether the words are a command that runs jobs, and a folder.
pub fn are_job_words(words: &[String]) -> bool
    ensures { result ≡ are_job_words (map string_bytes words.now) }
{
    are_run_words(words) || are_serial_words(words)
}

/// Whether the words are RUN and a folder.
pub fn are_run_words(words: &[String]) -> bool
    ensures { result ≡ are_run_words (map string_bytes words.now) }
{
    are_words_of(b"RUN", words)
}

/// Whether the words are SERIAL and a folder.
pub fn are_serial_words(words: &[String]) -> bool
    ensures { result ≡ are_serial_words (map string_bytes words.now) }
{
    are_words_of(b"SERIAL", words)
}

/// Whether the words are INZ and a folder.
pub fn are_format_words(words: &[String]) -> bool
    ensures { result ≡ are_format_words (map string_bytes words.now) }
{
    are_words_of(b"INZ", words)
}

/// Whether the words are DSP and a folder.
pub fn are_display_words(words: &[String]) -> bool
    ensures { result ≡ are_display_words (map string_bytes words.now) }
{
    are_words_of(b"DSP", words)
}

/// Whether the words are this command and a folder.
fn are_words_of(name: &[u8], words: &[String]) -> bool
    ensures { result ≡ are_words_of name.now (map string_bytes words.now) }
{
    match words {
        [command, folder] => command.as_bytes() == name && names_folder(folder.as_bytes()),
        _ => false,
    }
}

fn names_folder(word: &[u8]) -> bool
    ensures { result ≡ names_folder word.now }
{
    match word {
        [first, ..] => *first != b'-',
        [] => false,
    }
}
