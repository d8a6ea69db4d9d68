//! The forms of calls, and what each word of a call is.
ghost use Rattle.std.specs.Prelude.{◌≡◌, ◌<◌, ◌^◌, IfOk, IfSome, IsTrue, length, slice_get};
ghost use Rattle.look_told.specs.Words.{IsWord, is_look_command, text_of};

use std::alloc::{AllocError, Global};

/// What a word of a call is.
#[derive(Clone, Copy, Debug, PartialEq, Eq)]
pub enum Kind {
    Command,
    Steps,
    Workers,
    Count,
    Number,
    Source,
    Script,
    Log,
    Port,
}

/// The forms of the programs: a command, and what each further word is. Of what ends in two points there are COUNT, and of PORT.. as
/// many as there are words left.
pub(crate) const FORMS: [&str; 13] = [
    "check SOURCE",
    "run STEPS WORKERS SOURCE PORT..",
    "trace STEPS WORKERS SOURCE PORT..",
    "calc STEPS WORKERS SOURCE SCRIPT PORT..",
    "union STEPS WORKERS COUNT SOURCE.. PORT..",
    "record STEPS SOURCE LOG PORT..",
    "verify STEPS SOURCE LOG PORT..",
    "demo NUMBER STEPS WORKERS",
    "console WORKERS SOURCE PORT..",
    "why SOURCE",
    "bounds SOURCE",
    "net SOURCE",
    "hints SOURCE",
];

/// The words of a call, by the form that begins with the first of them.
#[derive(Drop)]
pub struct Call<'a> {
    pub words: &'a [String],
    pub form: Option<&'static str>,
    /// What the first words are; the others are too many.
    pub kinds: Vec<Kind>,
    /// The first part of the form for which there is no word.
    pub lacking: Option<&'static str>,
    count: usize,
}

impl<'a> Call<'a> {
    /// Reads the words of a call.
    pub fn read(alloc: Global, words: &'a [String]) -> Result<Call<'a>, AllocError>
        ensures { IfOk result (λ call. call.words.now ≡ words.now) }
    {
        let mut call = Call {
            words,
            form: None,
            kinds: Vec::new(alloc),
            lacking: None,
            count: 0,
        };
        if let Some(form) = form_of(call.command()) {
            call.form = Some(form);
            for part in form.split(' ') {
                call.read_part(part)?;
            }
        }
        Ok(call)
    }

    /// The first word.
    pub fn command(&self) -> &'a str
        ensures { result.now ≡ text_of (slice_get self.now.words.now 0) }
    {
        match self.words.get(0) {
            None => "",
            Some(word) => word.as_str(),
        }
    }

    /// Whether it is one of the program that looks at a source.
    pub fn is_look(&self) -> bool
        ensures { result ≡ is_look_command (text_of (slice_get self.now.words.now 0)) }
    {
        let command = self.command();
        command == "why" || command == "bounds" || command == "net" || command == "hints"
    }

    /// The word at that place, if it is of that kind.
    pub fn word_at(&self, kind: Kind, place: usize) -> Option<&'a str>
        ensures { IfSome result (λ word. IsWord self.now.words.now word.now) }
    {
        if self.kinds.get(place) != Some(&kind) {
            return None;
        }
        match self.words.get(place) {
            None => None,
            Some(word) => Some(word.as_str()),
        }
    }

    /// The first word of that kind.
    pub fn first(&self, kind: Kind) -> Option<&'a str>
        ensures { IfSome result (λ word. IsWord self.now.words.now word.now) }
    {
        for place in 0..self.kinds.len() {
            let word = self.word_at(kind, place);
            if word.is_some() {
                return word;
            }
        }
        None
    }

    /// Whether one of the words of that kind is that one.
    pub fn has(&self, kind: Kind, name: &[u8]) -> bool
        ensures { IsTrue result → IsWord self.now.words.now name.now }
    {
        for place in 0..self.kinds.len() {
            if let Some(word) = self.word_at(kind, place) {
                if word.as_bytes() == name {
                    return true;
                }
            }
        }
        false
    }

    fn read_part(&mut self, part: &'static str) -> Result<(), AllocError>
        ensures { self.new.words.now ≡ self.old.words.now }
    {
        match part {
            "PORT.." => {
                for _ in self.kinds.len()..self.words.len() {
                    self.kinds.push(Kind::Port)?;
                }
                Ok(())
            }
            "SOURCE.." => {
                for _ in 0..self.count {
                    if self.kinds.len() >= self.words.len() {
                        self.miss("SOURCE");
                        return Ok(());
                    }
                    self.kinds.push(Kind::Source)?;
                }
                Ok(())
            }
            _ => self.read_one(part),
        }
    }

    fn read_one(&mut self, part: &'static str) -> Result<(), AllocError>
        ensures { self.new.words.now ≡ self.old.words.now }
    {
        let Some(word) = self.words.get(self.kinds.len()) else {
            self.miss(part);
            return Ok(());
        };
        let kind = kind_of(part);
        if kind == Kind::Count {
            self.count = number_of(word.as_bytes()).unwrap_or(0) as usize;
        }
        self.kinds.push(kind)?;
        Ok(())
    }

    fn miss(&mut self, part: &'static str)
        ensures { self.new.words.now ≡ self.old.words.now }
    {
        if self.lacking.is_none() {
            self.lacking = Some(part);
        }
    }
}

fn form_of(command: &str) -> Option<&'static str> {
    for form in FORMS {
        if command_of(form) == command {
            return Some(form);
        }
    }
    None
}

/// The first word of a form.
pub(crate) fn command_of(form: &'static str) -> &'static str {
    form.split(' ').next().unwrap_or("")
}

fn kind_of(part: &str) -> Kind {
    match part {
        "STEPS" => Kind::Steps,
        "WORKERS" => Kind::Workers,
        "COUNT" => Kind::Count,
        "NUMBER" => Kind::Number,
        "SOURCE" => Kind::Source,
        "SCRIPT" => Kind::Script,
        "LOG" => Kind::Log,
        _ => Kind::Command,
    }
}

/// The number of one to nine digits.
#[tactic(auto, using(crate::proofs::Digits::below_step))]
pub fn number_of(word: &[u8]) -> Option<u32>
    ensures { IfSome result (λ number. number < 10 ^ length word.now) }
{
    if word.is_empty() || word.len() > 9 {
        return None;
    }
    let mut number: u32 = 0;
    for byte in word {
        if !byte.is_ascii_digit() {
            return None;
        }
        number = number
            .saturating_mul(10)
            .saturating_add(u32::from(byte.saturating_sub(b'0')));
    }
    Some(number)
}
