//! The text of a run's answers, which is read back.

ghost use Rattle.std.specs.Prelude.{◌≡◌, ◌<◌, ◌++◌, [], length, All, IfOk, IfSome, IsTrue, OnErr};
ghost use Rattle.std.specs.Prelude.{OnOk, option_copied, string_bytes};
ghost use Rattle.bundles.specs.Answers.{Answers};
ghost use Rattle.bundles.specs.AnswerLineTexts.{answer_text, list_text, start_text, comment_text};
ghost use Rattle.bundles.specs.AnswerLineTexts.{with_line, commented_text, started_text};
ghost use Rattle.bundles.specs.AnswerLineTexts.{run_text};
ghost use Rattle.bundles.specs.AnswerTexts.{CanBeSaid, SaysAnswers, is_one_line, with_answer};
ghost use Rattle.bundles.specs.TextLines.{IsComment, IsStartOf, SaysNothing};

use crate::said_answer::{are_bytes, said_line};
use smbus::Answer;
use std::alloc::{AllocError, Global};
use std::marker::Model;
use texts::{numbers_read_back, push_pair};

/// A text that says how the targets of a run start and what they answer, step by step. Contracts
/// see its bytes.
#[derive(Debug, Drop)]
pub struct AnswersText {
    text: String,
}

impl Model for AnswersText {
    ghost use Rattle.std.specs.Prelude.{ℕ, List, string_bytes};

    ghost Value = { List ℕ };

    ghost view = { λ a. string_bytes a.text };
}

/// Whether a comment has neither a line feed nor a carriage return.
pub fn is_one_line(comment: &str) -> bool
    ensures { result ≡ is_one_line comment.now }
{
    comment
        .as_bytes()
        .iter()
        .all(|byte| *byte != b'\n' && *byte != b'\r')
}

fn comment_line(alloc: Global, comment: &str) -> Result<String, AllocError>
    requires { IsTrue (is_one_line comment.now) }
    ensures text { IfOk result (λ line. string_bytes line ≡ comment_text comment.now) }
    ensures says { IfOk result (λ line. IsComment (string_bytes line)) }
{
    format!(in alloc; "# {comment}")
}

/// Adds the digits of bytes, with commas between them.
fn push_list(text: &mut String, bytes: &[u8]) -> Result<(), AllocError>
    ensures { OnOk result
        (string_bytes text.new ≡ string_bytes text.old ++ list_text bytes.now) }
{
    let mut comma = "";
    for byte in bytes {
        text.push_str(comma)?;
        push_pair(text, *byte)?;
        comma = ",";
    }
    Ok(())
}

fn start_line(alloc: Global, pages: &[u8], protects: &[u8]) -> Result<String, AllocError>
    requires some_page { 0 < length pages.now }
    requires some_protect { 0 < length protects.now }
    ensures text { IfOk result (λ line. string_bytes line ≡ start_text pages.now protects.now) }
    ensures says { IfOk result (λ line. IsStartOf (string_bytes line) pages.now protects.now) }
{
    are_bytes(pages);
    are_bytes(protects);
    numbers_read_back();
    let mut line = String::from_str(alloc, "start ")?;
    push_list(&mut line, pages)?;
    line.push(' ')?;
    push_list(&mut line, protects)?;
    Ok(line)
}

/// What stands above the start: a comment, if there is one.
fn commented(alloc: Global, comment: Option<&str>) -> Result<AnswersText, AllocError>
    requires { IfSome comment (λ c. IsTrue (is_one_line c.now)) }
    ensures text { IfOk result (λ text. text ≡ commented_text (option_copied comment.entry)) }
    ensures says { IfOk result SaysNothing }
{
    let mut text = AnswersText {
        text: String::new(alloc),
    };
    if let Some(comment) = comment {
        text.push_line(comment_line(alloc, comment)?)?;
    }
    Ok(text)
}

impl AnswersText {
    /// Adds a line and ends it.
    fn push_line(&mut self, line: String) -> Result<(), AllocError>
        ensures added { OnOk result (self.new ≡ with_line self.old (string_bytes line)) }
        ensures unchanged { OnErr result (self.new ≡ self.old) }
    {
        let mut line = line;
        line.push('\n')?;
        self.text.push_str(&line)
    }

    /// The text of a start and no answers: the comment, if there is one, in a line that begins with
    /// `#`, and then the pages and the protections that the targets start with. Fails only for want
    /// of memory.
    pub fn new(
        alloc: Global,
        comment: Option<&str>,
        pages: &[u8],
        protects: &[u8],
    ) -> Result<AnswersText, AllocError>
        requires comment { IfSome comment (λ c. IsTrue (is_one_line c.now)) }
        requires some_page { 0 < length pages.now }
        requires some_protect { 0 < length protects.now }
        ensures text { IfOk result (λ text.
            text ≡ started_text (option_copied comment.entry) pages.now protects.now) }
        ensures said { IfOk result (λ text. SaysAnswers text
            (record { pages = pages.now; protects = protects.now; answers = [] })) }
    {
        let mut text = commented(alloc, comment)?;
        text.push_line(start_line(alloc, pages, protects)?)?;
        Ok(text)
    }

    /// Adds the line of an answer. Fails only for want of memory, and then leaves the text as it
    /// was.
    pub fn push(&mut self, alloc: Global, answer: &Answer) -> Result<(), AllocError>
        requires { CanBeSaid answer.now }
        ensures text { OnOk result (self.new ≡ with_line self.old (answer_text answer.now)) }
        ensures said { OnOk result ((said : Answers) → SaysAnswers self.old said
            → SaysAnswers self.new (with_answer said answer.now)) }
        ensures unchanged { OnErr result (self.new ≡ self.old) }
    {
        self.push_line(said_line(alloc, answer)?)
    }

    /// The text of a whole run: the comment, if there is one, in a line that begins with `#`, the
    /// pages and the protections that the targets start with, and a line for each answer. Fails
    /// only for want of memory.
    pub fn of_run(
        alloc: Global,
        comment: Option<&str>,
        pages: &[u8],
        protects: &[u8],
        answers: &[Answer],
    ) -> Result<AnswersText, AllocError>
        requires comment { IfSome comment (λ c. IsTrue (is_one_line c.now)) }
        requires some_page { 0 < length pages.now }
        requires some_protect { 0 < length protects.now }
        requires sayable { All CanBeSaid answers.now }
        ensures text { IfOk result (λ text. text ≡ run_text (option_copied comment.entry)
            (record { pages = pages.now; protects = protects.now; answers = answers.now })) }
        ensures said { IfOk result (λ text. SaysAnswers text
            (record { pages = pages.now; protects = protects.now; answers = answers.now })) }
    {
        let mut text = AnswersText::new(alloc, comment, pages, protects)?;
        for answer in answers {
            text.push(alloc, answer)?;
        }
        Ok(text)
    }

    /// Adds a comment, in a line that begins with `#`. Fails only for want of memory, and then
    /// leaves the text as it was.
    pub fn remark(&mut self, alloc: Global, comment: &str) -> Result<(), AllocError>
        requires { IsTrue (is_one_line comment.now) }
        ensures text { OnOk result (self.new ≡ with_line self.old (comment_text comment.now)) }
        ensures said { OnOk result
            ((said : Answers) → SaysAnswers self.old said → SaysAnswers self.new said) }
        ensures unchanged { OnErr result (self.new ≡ self.old) }
    {
        self.push_line(comment_line(alloc, comment)?)
    }

    /// The text so far.
    pub fn text(&self) -> &str
        ensures { result.now ≡ self.now }
    {
        &self.text
    }

    /// The text alone.
    pub fn into_text(self) -> String
        ensures { string_bytes result ≡ self }
    {
        let AnswersText { text } = self;
        text
    }
}
