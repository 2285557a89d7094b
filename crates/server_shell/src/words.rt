//! The command line.

ghost use Rattle.std.specs.Prelude.{◌≡◌, Some, None, map, MatchResult};
ghost use Rattle.server_shell.specs.Words.{usage_fault, folder_fault, job_of, place_of};

/// What the program is asked to do.
#[derive(Clone, Copy, Debug, PartialEq, Eq)]
pub enum Job {
    /// Serve the source over the log in the directory.
    Pipe,
    /// Tell what a start would find in the directory, and change nothing.
    Check,
}

/// Why the words are of no form.
#[derive(Clone, Copy, Debug, PartialEq, Eq)]
pub enum WordsFault {
    /// The place of the first word that no form allows, or the number of words where one is
    /// missing.
    Usage(u32),
}

/// Reads the words after the program's name: `pipe` or `check`, and a folder.
pub fn read_words(words: &[&str]) -> Result<Job, WordsFault>
    ensures fault { MatchResult result
        (λ job. (usage_fault (map (λ word. word.now) words.now) ≡ None)
        × (job ≡ job_of (map (λ word. word.now) words.now)))
        (λ fault. usage_fault (map (λ word. word.now) words.now) ≡ Some (place_of fault)) }
{
    match words {
        [command, rest @ ..] if *command == "pipe" => over_folder(Job::Pipe, rest),
        [command, rest @ ..] if *command == "check" => over_folder(Job::Check, rest),
        _ => Err(WordsFault::Usage(0)),
    }
}

// A job over the folder that follows.
fn over_folder(job: Job, words: &[&str]) -> Result<Job, WordsFault>
    ensures fault { MatchResult result
        (λ asked. (folder_fault (map (λ word. word.now) words.now) ≡ None) × (asked ≡ job))
        (λ fault. folder_fault (map (λ word. word.now) words.now) ≡ Some (place_of fault)) }
{
    match words {
        [] => Err(WordsFault::Usage(1)),
        [_] => Ok(job),
        [_, _, ..] => Err(WordsFault::Usage(2)),
    }
}
