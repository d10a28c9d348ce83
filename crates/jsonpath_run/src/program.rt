//! The program as a function: it does with the bytes read what its arguments ask for, and writes the answer.
ghost use Rattle.std.specs.Prelude.{◌≡◌, ◌⊎◌, ◌↔◌, ◌≢◌, ℕ, List, [], ◌∷◌, ◌++◌, map, length, true, false, string_bytes, codes, Err, Some, IfOk, IfErr, OnOk};
ghost use Rattle.serde_json.specs.Data.{Data};
ghost use Rattle.jsonpath_nodes.specs.document.OfData.{document_of};
ghost use Rattle.jsonpath_lib.specs.Text.{IsTreeOf, IsTextOfChanged, IsChangedTextRefused};
ghost use Rattle.jsonpath_run.specs.Words.{IsCount, IsUsage};
ghost use Rattle.jsonpath_run.specs.Output.{IsAnswer, IsChange, IsOutput, IsRefusal, IsAnswerRefused, IsCheck, HasNoPath, IfRefused, IsNotIo};

use crate::faults::Fault;
use crate::whole_streams::{ReadFault, read_to_end, write_all};
use crate::words::{Command, parse_call};
use json::Scratch;
use jsonpath_lib::{PathsFault, Text, compile_paths};
use jsonpath_nodes::laws::documents_keep_data_apart;
use jsonpath_paths::PathParser;
use jsonpath_paths::laws::one_tree_per_text;
use jsonpath_select::JsonPathError;
use jsonpath_streams::{Input, IoFailed, Output};
use std::alloc::Global;
use std::mem::forget;

/// Runs the program `jsonpath_run` on its arguments, without its name: compiles the paths, reads the input to its end
/// if the command needs it, and writes the answer with a line end. Returns the exit status 0.
///
/// Errors: `Usage` exactly if the arguments are no valid command line (then nothing is read); `Refused` if a path isn't
/// in the grammar (then nothing is read), if the input is no document or the answer can't be printed, or if memory ran
/// out. In all these cases nothing is written. `Io` if a read failed (then nothing is written), or if a write failed
/// (then a beginning of the answer, possibly empty, is written).
///
/// ```text
/// let mut reader = Checked::new(r#"{"a":1}"#.as_bytes());
/// let mut output = Vec::<u8>::new(alloc);
/// let mut writer = Checked::new(&mut output);
/// assert!(rt; matches!(run(alloc, &["select", "$.a"], &mut reader, &mut writer), Ok(0)));
/// drop(writer);
/// assert!(rt; output.as_slice() == "[1]\n".as_bytes());
/// ```
pub fn run<R: Input, W: Output>(
    alloc: Global,
    words: &[&str],
    reader: &mut R,
    writer: &mut W,
) -> Result<u8, Fault>
    requires reader { R.has_failed reader.old ≡ false }
    requires writer { W.has_failed writer.old ≡ false }
    ensures status { IfOk result (λ status. status ≡ 0) }
    // What is written is the output for the words and for what was read.
    ensures output { OnOk result ((input : List ℕ) × (text : List ℕ)
        × (R.given reader.new ≡ R.given reader.old ++ input)
        × (W.written writer.new ≡ W.written writer.old ++ text)
        × IsOutput (map (λ w. w.now) words.now) input text) }
    ensures whole { OnOk result (IsCheck (map (λ w. w.now) words.now)
        ⊎ (R.has_ended reader.new ≡ true)) }
    ensures usage { (result ≡ Err Fault.Usage) ↔ IsUsage (map (λ w. w.now) words.now) }
    ensures refused { IfErr result (λ fault. IfRefused fault (λ error. (input : List ℕ)
        × (R.given reader.new ≡ R.given reader.old ++ input)
        × IsRefusal (map (λ w. w.now) words.now) input (R.has_ended reader.new) error)) }
    ensures unwritten { IfErr result (λ fault. IsNotIo fault → writer.new ≡ writer.old) }
    ensures unread_usage { IsUsage (map (λ w. w.now) words.now) → reader.new ≡ reader.old }
    ensures unread_path { HasNoPath (map (λ w. w.now) words.now) → reader.new ≡ reader.old }
    ensures unread_check { IsCheck (map (λ w. w.now) words.now) → reader.new ≡ reader.old }
    // A fault of the streams comes exactly where one of them failed.
    ensures failed { result ≡ Err Fault.Io
        → (R.has_failed reader.new ≡ true) ⊎ (W.has_failed writer.new ≡ true) }
    ensures works { result ≢ Err Fault.Io → (R.has_failed reader.new ≡ false)
        × (W.has_failed writer.new ≡ false) }
    ensures failed_read { result ≡ Err Fault.Io → R.has_failed reader.new ≡ true
        → writer.new ≡ writer.old }
    ensures failed_write { result ≡ Err Fault.Io → W.has_failed writer.new ≡ true
        → (input : List ℕ) × (front : List ℕ) × (rest : List ℕ)
        × (R.given reader.new ≡ R.given reader.old ++ input)
        × (IsCheck (map (λ w. w.now) words.now) ⊎ (R.has_ended reader.new ≡ true))
        × (W.written writer.new ≡ W.written writer.old ++ front)
        × IsOutput (map (λ w. w.now) words.now) input (front ++ rest) }
{
    let Some(call) = parse_call(words) else {
        return Err(Fault::Usage);
    };
    let paths = match compile_paths(alloc, call.paths) {
        Ok(paths) => paths,
        Err(PathsFault { index: _, fault }) => return Err(Fault::Refused(fault)),
    };
    let input = match read_input_for_command(alloc, call.command, reader) {
        Ok(input) => input,
        Err(ReadFault::Io) => return Err(Fault::Io),
        Err(ReadFault::OutOfMemory) => return Err(Fault::Refused(JsonPathError::OutOfMemory)),
    };
    let output = match output_for_command(alloc, call.command, paths, input) {
        Ok(output) => output,
        Err(error) => return Err(Fault::Refused(error)),
    };
    match write_all(writer, output.as_bytes()) {
        Ok(()) => Ok(0),
        Err(IoFailed) => Err(Fault::Io),
    }
}

// The input that a command needs: nothing for `check`, for the others all that can be read.
fn read_input_for_command<R: Input>(
    alloc: Global,
    command: Command,
    reader: &mut R,
) -> Result<Vec<u8>, ReadFault>
    requires { R.has_failed reader.old ≡ false }
    ensures given { IfOk result (λ input. R.given reader.new ≡ R.given reader.old ++ input.items) }
    ensures whole { OnOk result ((command ≡ Command.Check) ⊎ (R.has_ended reader.new ≡ true)) }
    ensures unread { command ≡ Command.Check → reader.new ≡ reader.old }
    ensures memory { result ≡ Err ReadFault.OutOfMemory
        → (input : List ℕ) × (R.given reader.new ≡ R.given reader.old ++ input) }
    ensures failed { result ≡ Err ReadFault.Io → R.has_failed reader.new ≡ true }
    ensures works { result ≢ Err ReadFault.Io → R.has_failed reader.new ≡ false }
{
    match command {
        Command::Check => Ok(Vec::new(alloc)),
        Command::Select | Command::Delete | Command::Remove | Command::Mask => {
            read_to_end(alloc, reader)
        }
    }
}

// What the command writes for its paths and the input, with a line end: `ok`, the selected values or the changed
// document. Refused where the input is no document or the answer has no text.
fn output_for_command(
    alloc: Global,
    command: Command,
    paths: Vec<PathParser<'_>>,
    input: Vec<u8>,
) -> Result<String, JsonPathError>
    requires { IsCount command (length paths.items) }
    ensures ok { IfOk result (λ text. (line : List ℕ) × IsAnswer command paths.entry.items input.items line
        × (string_bytes text ≡ line ++ codes "\n")) }
    ensures refused { IfErr result (IsAnswerRefused command paths.entry.items input.items) }
{
    let mut text = match command {
        Command::Check => String::from_str(alloc, "ok")?,
        Command::Select => selected_text(alloc, &paths[0], input)?,
        Command::Delete | Command::Remove | Command::Mask => {
            changed_text(alloc, command, paths.as_slice(), input)?
        }
    };
    text.push('\n')?;
    Ok(text)
}

// The text of the values that the path selects in the input's document, which is not dropped: the program ends soon.
#[tactic(auto, using(crate::proofs::RefusalLemmas::refused_read))]
fn selected_text(
    alloc: Global,
    path: &PathParser<'_>,
    input: Vec<u8>,
) -> Result<String, JsonPathError>
    ensures ok { IfOk result
        (λ text. IsAnswer Command.Select (path.now ∷ []) input.items (string_bytes text)) }
    ensures refused { IfErr result (IsAnswerRefused Command.Select (path.now ∷ []) input.items) }
{
    one_tree_per_text();
    documents_keep_data_apart();
    let mut scratch = Scratch::new(alloc);
    let document = Text::read(alloc, input.as_slice(), &mut scratch)?;
    let text = document.select_as_str(alloc, path);
    forget(document);
    text
}

// The text of the input's document, changed as `delete`, `remove` or `mask` asks. It is not dropped either.
#[tactic(auto, using(crate::proofs::RefusalLemmas::refused_read))]
fn changed_text(
    alloc: Global,
    command: Command,
    paths: &[PathParser<'_>],
    input: Vec<u8>,
) -> Result<String, JsonPathError>
    requires count { IsCount command (length paths.now) }
    requires selects { command ≢ Command.Select }
    requires checks { command ≢ Command.Check }
    ensures ok { IfOk result
        (λ text. IsAnswer command paths.now input.items (string_bytes text)) }
    ensures refused { IfErr result (IsAnswerRefused command paths.now input.items) }
{
    one_tree_per_text();
    documents_keep_data_apart();
    let mut scratch = Scratch::new(alloc);
    let document = Text::read(alloc, input.as_slice(), &mut scratch)?;
    let text = text_of_change(alloc, command, paths, &document);
    forget(document);
    text
}

// The text of a document changed as `delete`, `remove` or `mask` asks.
fn text_of_change(
    alloc: Global,
    command: Command,
    paths: &[PathParser<'_>],
    document: &Text<'_>,
) -> Result<String, JsonPathError>
    requires count { IsCount command (length paths.now) }
    requires selects { command ≢ Command.Select }
    requires checks { command ≢ Command.Check }
    ensures ok { IfOk result (λ text. (before : Data) → IsTreeOf document.now before → IsTextOfChanged (IsChange command paths.now (document_of before)) (string_bytes text)) }
    ensures refused { IfErr result (λ e. (before : Data) → IsTreeOf document.now before → IsChangedTextRefused (IsChange command paths.now (document_of before)) e) }
{
    match command {
        Command::Delete | Command::Mask => document.mask_as_str(alloc, paths),
        Command::Remove => document.remove_as_str(alloc, paths),
        Command::Select | Command::Check => unreachable!(),
    }
}
