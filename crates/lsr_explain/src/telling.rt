//! What is printed for what a word asks for.
ghost use Rattle.std.specs.Prelude.{◌≡◌, ◌++◌, ℕ, List, codes, IfOk, OnOk};
ghost use Rattle.std.specs.Io.KnownBytes.{Appends};
ghost use Rattle.line_streams.specs.Cuts.{lines_of};
ghost use Rattle.lsr_explain.specs.declared.explaining.Answer.{Answer};
ghost use Rattle.lsr_explain.specs.Asking.{asked_by};
ghost use Rattle.lsr_explain.specs.Topics.{Explains};
ghost use Rattle.lsr_explain.specs.Answers.{IsTold, answer_status, answers_text, explained, faults_text, heading_line, headings_text, near_text, nearest_text, object_line, section_text, shown_text, told_word, topic_text, topics_text, unknown_text};

use crate::asking::asked_word;
use crate::explaining::{Answer, explain};
use crate::nearest::{Near, rank};
use crate::topics::{Kind, Topic, is_indented};
use line_streams::next_line;
use std::alloc::Global;
use std::io;
use std::io::Write;

/// The status of a word that asks for nothing.
const BAD_WORDS: u8 = 2;
/// The value of an error about an object is so many times the object's class, plus its C-Type (RFC 2205, B).
const CLASS_UNIT: u16 = 256;
/// What is told of a word that asks for nothing.
const UNKNOWN: &str = "error: no refusal, error or fault has this number or name\n";
/// What is told after the topics that come closest.
const CLOSEST: &str = "  these come closest to it; `lsr explain list` has all\n";
/// What stands over the topics.
const OF_REFUSALS: &str = "Refusals (refused N NAME), by number or name:\n";

const OF_ERRORS: &str =
    "Errors of RSVP (error CODE VALUE), by CODE/VALUE or name; N stands for any value:\n";

const OF_CONFIG_FAULTS: &str = "Faults of a configuration (config FAULT KEY), by FAULT:\n";

const OF_RUN_FAULTS: &str = "Faults of a recorded run (entry N: FAULT), by FAULT:\n";

const OF_ENDINGS: &str = "What else ends a run, by its first word:\n";

/// The word that a router or the program tells such a topic with.
fn told_word(kind: Kind) -> &'static str
    ensures { result.now ≡ told_word kind }
{
    match kind {
        Kind::Refusal => "refused ",
        Kind::RsvpError => "error ",
        Kind::ConfigFault => "config ",
        Kind::RunFault => "entry N: ",
        Kind::Ending => "",
    }
}

/// Prints the line. The error is the stream's.
fn put_line<W: Write>(output: &mut W, line: &str) -> io::Result<()>
    ensures { OnOk result (Appends (W.contents output.old) (W.contents output.new) (line.now ++ codes "\n")) }
{
    write!(output, "{line}\n")
}

/// Prints the lines of the text up to the first that doesn't begin with a space. The error is the stream's.
fn put_explained<W: Write>(output: &mut W, text: &str) -> io::Result<()>
    ensures { OnOk result (Appends (W.contents output.old) (W.contents output.new) (explained (lines_of text.now))) }
{
    let mut rest = text;
    while let Some((line, behind)) = next_line(rest) {
        if is_indented(line) {
            put_line(output, line)?;
        } else {
            return Ok(());
        }
        rest = behind;
    }
    Ok(())
}

/// Prints the topic. The error is the stream's.
fn put_topic<W: Write>(output: &mut W, topic: &Topic) -> io::Result<()>
    ensures { OnOk result (Appends (W.contents output.old) (W.contents output.new) (topic_text topic.now)) }
{
    let word = told_word(topic.kind);
    let heading = topic.heading;
    write!(output, "{word}{heading}\n")?;
    put_explained(output, topic.behind)
}

/// Prints which object an error's value tells. The error is the stream's.
fn put_object<W: Write>(output: &mut W, value: u16) -> io::Result<()>
    ensures { OnOk result (Appends (W.contents output.old) (W.contents output.new) (object_line value)) }
{
    let class = value / CLASS_UNIT;
    let ctype = value % CLASS_UNIT;
    write!(
        output,
        "  Here N is {value}: class {class}, C-Type {ctype}.\n"
    )
}

/// Prints the line if it is a heading. The error is the stream's.
fn put_heading<W: Write>(output: &mut W, line: &str) -> io::Result<()>
    ensures { OnOk result (Appends (W.contents output.old) (W.contents output.new) (heading_line line.now)) }
{
    if is_indented(line) {
        return Ok(());
    }
    write!(output, "  {line}\n")
}

/// Prints the headings of the text, and leaves out the lines that begin with spaces. The error is the stream's.
fn put_headings<W: Write>(output: &mut W, text: &str) -> io::Result<()>
    ensures { OnOk result (Appends (W.contents output.old) (W.contents output.new) (headings_text (lines_of text.now))) }
{
    let mut rest = text;
    while let Some((line, behind)) = next_line(rest) {
        put_heading(output, line)?;
        rest = behind;
    }
    Ok(())
}

/// Prints the headings of the topics of this kind, with a line over them. The error is the stream's.
fn put_section<W: Write>(output: &mut W, title: &str, kind: Kind) -> io::Result<()>
    ensures { OnOk result (Appends (W.contents output.old) (W.contents output.new) (section_text title.now kind)) }
{
    output.write_all(title.as_bytes())?;
    put_headings(output, kind.text())
}

/// Prints what can be asked of a run's answers. The error is the stream's.
fn put_answers<W: Write>(output: &mut W) -> io::Result<()>
    ensures { OnOk result (Appends (W.contents output.old) (W.contents output.new) answers_text) }
{
    put_section(output, OF_REFUSALS, Kind::Refusal)?;
    put_section(output, OF_ERRORS, Kind::RsvpError)
}

/// Prints which faults can be asked, and what else ends a run. The error is the stream's.
fn put_faults<W: Write>(output: &mut W) -> io::Result<()>
    ensures { OnOk result (Appends (W.contents output.old) (W.contents output.new) faults_text) }
{
    put_section(output, OF_CONFIG_FAULTS, Kind::ConfigFault)?;
    put_section(output, OF_RUN_FAULTS, Kind::RunFault)?;
    put_section(output, OF_ENDINGS, Kind::Ending)
}

/// Prints all that can be asked. The error is the stream's.
fn put_topics<W: Write>(output: &mut W) -> io::Result<()>
    ensures { OnOk result (Appends (W.contents output.old) (W.contents output.new) topics_text) }
{
    put_answers(output)?;
    put_faults(output)
}

/// Prints the topic of an error about an object, and which object its value tells. The error is the stream's.
fn put_object_topic<W: Write>(output: &mut W, topic: &Topic, value: u16) -> io::Result<()>
    ensures { OnOk result (Appends (W.contents output.old) (W.contents output.new) (topic_text topic.now ++ object_line value)) }
{
    put_topic(output, topic)?;
    put_object(output, value)
}

/// Tells a heading. The error is the stream's.
fn put_near<E: Write>(error: &mut E, near: &Near) -> io::Result<()>
    ensures { OnOk result (Appends (E.contents error.old) (E.contents error.new) (near_text near.now)) }
{
    let word = told_word(near.kind);
    let heading = near.heading;
    write!(error, "  {word}{heading}\n")
}

/// Tells the first three headings. The error is the stream's.
fn put_nearest<E: Write>(error: &mut E, ranked: &[Near]) -> io::Result<()>
    ensures { OnOk result (Appends (E.contents error.old) (E.contents error.new) (nearest_text ranked.now)) }
{
    let [first, second, third, ..] = ranked else {
        return Ok(());
    };
    put_near(error, first)?;
    put_near(error, second)?;
    put_near(error, third)
}

/// Tells that a word asks for nothing, and the three headings that come closest to it, of headings of which the nearest come
/// first. The error is the stream's.
fn put_unknown<E: Write>(error: &mut E, ranked: &[Near]) -> io::Result<()>
    ensures { OnOk result (Appends (E.contents error.old) (E.contents error.new) (unknown_text ranked.now)) }
{
    error.write_all(UNKNOWN.as_bytes())?;
    put_nearest(error, ranked)?;
    error.write_all(CLOSEST.as_bytes())
}

/// Prints what the word is answered, and gives the status. The error is a stream's, or that memory ran out.
fn tell_answer<W: Write, E: Write>(
    alloc: Global,
    word: &str,
    answer: &Answer,
    output: &mut W,
    error: &mut E,
) -> io::Result<u8>
    ensures status { IfOk result (λ status. status ≡ answer_status answer.now) }
    ensures shown { OnOk result (Appends (W.contents output.old) (W.contents output.new) (shown_text answer.now)) }
    ensures told { OnOk result ((told : List ℕ) × IsTold word.now answer.now told × Appends (E.contents error.old) (E.contents error.new) told) }
{
    match answer {
        Answer::Topic(topic) => {
            put_topic(output, topic)?;
            Ok(0)
        }
        Answer::Object(topic, value) => {
            put_object_topic(output, topic, *value)?;
            Ok(0)
        }
        Answer::List => {
            put_topics(output)?;
            Ok(0)
        }
        Answer::Unknown => {
            let ranked = rank(alloc, word)?;
            put_unknown(error, ranked.as_slice())?;
            Ok(BAD_WORDS)
        }
    }
}

/// `lsr explain WHAT..`: prints what the refusal, the error or the fault means that the texts ask for, or tells on the error
/// stream which three come closest to it, and gives the status: 0, or 2 where they ask for nothing. The error is that a
/// stream could not be written, or that memory ran out.
pub fn run_explain<W: Write, E: Write>(
    alloc: Global,
    texts: &[&str],
    output: &mut W,
    error: &mut E,
) -> io::Result<u8>
    ensures { IfOk result (λ status. (answer : Answer) × (told : List ℕ) × Explains (asked_by texts.now) answer × (status ≡ answer_status answer)
        × Appends (W.contents output.old) (W.contents output.new) (shown_text answer)
        × IsTold (asked_by texts.now) answer told × Appends (E.contents error.old) (E.contents error.new) told) }
{
    let word = asked_word(alloc, texts)?;
    let answer = explain(word.as_str());
    tell_answer(alloc, word.as_str(), &answer, output, error)
}
