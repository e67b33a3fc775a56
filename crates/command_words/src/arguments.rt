// The files and options that stand behind the name of a command.
ghost use Rattle.std.specs.Prelude.{◌≡◌, ◌≢◌, ◌++◌, ℕ, List, IfSome, MatchOption, Option, false, map, string_bytes};
ghost use Rattle.std.specs.Option.{option_map};
ghost use Rattle.command_words.specs.Kept.{arguments_of, asked};
ghost use Rattle.command_words.specs.Reading.{after, all_digits, begins_option, complete, count_in, is_short, may_be_saved, no_arguments, number_in, to_check, to_compile, to_feed, to_resume, to_run, to_work, unset, value_behind, with_any, with_budget, with_file, with_other, with_save, with_strip, with_word};
ghost use Rattle.command_words.specs.Words.{Command as Wanted};

use crate::command::Command;

/// The greatest number of bytes in a file's name.
const MAX_FILE_NAME: usize = 65_536;

/// The greatest number of digits of a number.
const MAX_DIGITS: usize = 15;

/// How many calls and jumps back a turn may do where the words do not say.
const DEFAULT_BUDGET: u64 = 10_000_000;

/// The greatest number of functions of a script that is work alone.
const MAX_COUNT: u64 = 10_000;

/// The files that words name.
#[derive(Clone, Copy)]
pub enum Files<'a> {
    Unnamed,
    One(&'a str),
    Two(&'a str, &'a str),
}

/// What the next word is.
#[derive(Clone, Copy)]
pub enum Next {
    /// An option or a file.
    Any,
    /// The value of `--budget`.
    Budget,
    /// The value of `--save`.
    Save,
    /// A file, since `--` came before.
    File,
}

/// The files and options that words name.
#[derive(Clone, Copy)]
pub struct Arguments<'a> {
    files: Files<'a>,
    budget: Option<u64>,
    save: Option<&'a str>,
    strip: bool,
    next: Next,
}

impl<'a> Arguments<'a> {
    /// The files and options that all the words name, unless one is wrong.
    pub(crate) fn read(words: &'a [String]) -> Option<Arguments<'a>>
        ensures { option_map arguments_of result ≡ after no_arguments (map string_bytes words.now) }
    {
        let mut arguments = Arguments::before(words);
        for word in words {
            arguments = arguments.with(word.as_str())?;
        }
        arguments.complete()
    }

    /// Nothing of the words is named yet. They are taken for their lifetime alone.
    fn before(_words: &'a [String]) -> Arguments<'a>
        ensures { arguments_of result ≡ no_arguments }
    {
        Arguments {
            files: Files::Unnamed,
            budget: None,
            save: None,
            strip: false,
            next: Next::Any,
        }
    }

    /// The same and what one word more names, unless it is wrong here.
    fn with(self, word: &'a str) -> Option<Arguments<'a>>
        ensures { option_map arguments_of result ≡ with_word word.now (arguments_of self.entry) }
    {
        match self.next {
            Next::Any => self.with_any(word),
            Next::Budget => self.with_budget(word),
            Next::Save => self.with_save(word),
            Next::File => self.with_file(word),
        }
    }

    fn with_any(self, word: &'a str) -> Option<Arguments<'a>>
        ensures { option_map arguments_of result ≡ with_any word.now (arguments_of self.entry) }
    {
        match word {
            "--" => Some(self.expecting(Next::File)),
            "--budget" => Some(self.expecting(Next::Budget)),
            "--save" => Some(self.expecting(Next::Save)),
            "--strip" => self.with_strip(),
            _ => self.with_other(word),
        }
    }

    /// The same and what a word names that is no option of its own.
    fn with_other(self, word: &'a str) -> Option<Arguments<'a>>
        ensures { option_map arguments_of result ≡ with_other word.now (arguments_of self.entry) }
    {
        if let Some(digits) = value_behind(word, "--budget=") {
            return self.with_budget(digits);
        }
        if let Some(image) = value_behind(word, "--save=") {
            return self.with_save(image);
        }
        if begins_option(word.as_bytes()) {
            return None;
        }
        self.with_file(word)
    }

    fn expecting(self, next: Next) -> Arguments<'a>
        ensures { arguments_of result ≡ record (arguments_of self.entry) { next = next } }
    {
        Arguments {
            files: self.files,
            budget: self.budget,
            save: self.save,
            strip: self.strip,
            next,
        }
    }

    fn with_file(self, word: &'a str) -> Option<Arguments<'a>>
        ensures { option_map arguments_of result ≡ with_file word.now (arguments_of self.entry) }
    {
        let files = match self.files {
            Files::Unnamed => Files::One(word),
            Files::One(first) => Files::Two(first, word),
            Files::Two(_, _) => return None,
        };
        Some(Arguments {
            files,
            budget: self.budget,
            save: self.save,
            strip: self.strip,
            next: self.next,
        })
    }

    fn with_budget(self, digits: &str) -> Option<Arguments<'a>>
        ensures { option_map arguments_of result ≡ with_budget (number_in digits.now) (arguments_of self.entry) }
    {
        let budget = number_in(digits)?;
        match self.budget {
            None => Some(Arguments {
                files: self.files,
                budget: Some(budget),
                save: self.save,
                strip: self.strip,
                next: Next::Any,
            }),
            Some(_) => None,
        }
    }

    fn with_save(self, image: &'a str) -> Option<Arguments<'a>>
        ensures { option_map arguments_of result ≡ with_save image.now (arguments_of self.entry) }
    {
        match self.save {
            None => Some(Arguments {
                files: self.files,
                budget: self.budget,
                save: Some(image),
                strip: self.strip,
                next: Next::Any,
            }),
            Some(_) => None,
        }
    }

    fn with_strip(self) -> Option<Arguments<'a>>
        ensures { option_map arguments_of result ≡ with_strip (arguments_of self.entry) }
    {
        if self.strip {
            return None;
        }
        Some(Arguments {
            files: self.files,
            budget: self.budget,
            save: self.save,
            strip: true,
            next: self.next,
        })
    }

    /// The same, unless the last word wants a value.
    fn complete(self) -> Option<Arguments<'a>>
        ensures { option_map arguments_of result ≡ complete (arguments_of self.entry) }
    {
        match self.next {
            Next::Budget | Next::Save => None,
            Next::Any | Next::File => Some(self),
        }
    }

    /// What a command is told that does turns: its one file, the budget of each turn, and the file that the session is saved in.
    fn to_feed(self) -> Option<(&'a str, u64, Option<&'a str>)>
        ensures { (command : List ℕ → ℕ → Option (List ℕ) → Wanted) → option_map (λ told. command told.0.now told.1 (option_map (λ image. image.now) told.2)) result ≡ to_feed command (arguments_of self.entry) }
    {
        match self.files {
            Files::One(file) if !self.strip && is_short(file) && may_be_saved(self.save) => {
                Some((file, self.budget.unwrap_or(DEFAULT_BUDGET), self.save))
            }
            _ => None,
        }
    }

    pub(crate) fn to_run(self) -> Option<Command<'a>>
        ensures { option_map asked result ≡ to_run (arguments_of self.entry) }
    {
        let (file, budget, save) = self.to_feed()?;
        Some(Command::Run { file, budget, save })
    }

    pub(crate) fn to_resume(self) -> Option<Command<'a>>
        ensures { option_map asked result ≡ to_resume (arguments_of self.entry) }
    {
        let (image, budget, save) = self.to_feed()?;
        Some(Command::Resume {
            image,
            budget,
            save,
        })
    }

    /// Neither a budget nor an image to save is named.
    fn has_no_value(&self) -> bool
        ensures { result ≡ unset self.now.budget self.now.save }
    {
        self.budget.is_none() && self.save.is_none()
    }

    pub(crate) fn to_check(self) -> Option<Command<'a>>
        ensures { option_map asked result ≡ to_check (arguments_of self.entry) }
    {
        match self.files {
            Files::One(file) if !self.strip && self.has_no_value() && is_short(file) => {
                Some(Command::Check { file })
            }
            _ => None,
        }
    }

    pub(crate) fn to_compile(self) -> Option<Command<'a>>
        ensures { option_map asked result ≡ to_compile (arguments_of self.entry) }
    {
        match self.files {
            Files::Two(script, chunk)
                if self.has_no_value() && is_short(script) && is_short(chunk) => {
                Some(Command::Compile {
                    script,
                    chunk,
                    strip: self.strip,
                })
            }
            _ => None,
        }
    }

    pub(crate) fn to_work(self) -> Option<Command<'a>>
        ensures { option_map asked result ≡ to_work (arguments_of self.entry) }
    {
        match self.files {
            Files::One(digits) if !self.strip && self.has_no_value() => {
                let count = count_in(digits)?;
                Some(Command::Work { count })
            }
            _ => None,
        }
    }
}

/// How many functions the digits ask for.
fn count_in(digits: &str) -> Option<u32>
    ensures { result ≡ count_in digits.now }
{
    match number_in(digits) {
        Some(count) if count <= MAX_COUNT => Some(count as u32),
        _ => None,
    }
}

/// Whether the image to save has a name that is short enough and not empty, where there is one.
fn may_be_saved(save: Option<&str>) -> bool
    ensures { result ≡ may_be_saved (option_map (λ image. image.now) save.entry) }
{
    match save {
        None => true,
        Some(image) => is_short(image) && !image.is_empty(),
    }
}

/// What stands behind an option and its `=` in a word.
fn value_behind<'a>(word: &'a str, option: &str) -> Option<&'a str>
    ensures { option_map (λ value. value.now) result ≡ value_behind option.now word.now }
{
    word.strip_prefix(option)
}

/// Whether the word is an option where it stands before `--`.
fn begins_option(word: &[u8]) -> bool
    ensures { result ≡ begins_option word.now }
{
    match word {
        [first, ..] => *first == b'-',
        [] => false,
    }
}

/// Whether a file's name is short enough.
fn is_short(file: &str) -> bool
    ensures { result ≡ is_short file.now }
{
    file.len() <= MAX_FILE_NAME
}

/// The number from 1 on that one to fifteen digits spell.
fn number_in(digits: &str) -> Option<u64>
    ensures { result ≡ number_in digits.now }
{
    if digits.len() > MAX_DIGITS || !all_digits(digits.as_bytes()) {
        return None;
    }
    match digits.parse::<u64>() {
        Ok(number) if number > 0 => Some(number),
        _ => None,
    }
}

fn all_digits(text: &[u8]) -> bool
    ensures { result ≡ all_digits text.now }
{
    text.iter().all(|byte| byte.is_ascii_digit())
}
