//! Lemmas about the machine.
ghost use Rattle.std.specs.Prelude.{◌≡◌, List, [], ℕ, map, true};
ghost use Rattle.json_recognizer.specs.Classes.{class_of};
ghost use Rattle.json_recognizer.specs.declared.class.Class.{Class};
ghost use Rattle.json_recognizer.specs.declared.machine.Mode.TheVariants.{Value};
ghost use Rattle.json_recognizer.specs.Machine.{accepts, after_all, refused};
ghost use Rattle.json_recognizer.specs.Grammar.{Begins, IsWritten, max_depth};
ghost use Rattle.json_recognizer.specs.Stream.{IsFound, found_in};

/// Lemma: the recognizer, which checks a text byte by byte, accepts a text exactly if it is a JSON document nested at
/// most 127 levels deep. If it rejects the beginning of a text, no such document begins so.
pub fn accepts_documents()
    ensures accepted { (text : List Class) → accepts Value [] max_depth text ≡ true → IsWritten text }
    ensures written { (text : List Class) → IsWritten text → accepts Value [] max_depth text ≡ true }
    ensures refused { (front : List ℕ) → after_all Value [] max_depth (map class_of front) ≡ refused → Begins front → ⊥ }
{}

/// Lemma: the recognizer, which reads a text byte by byte, decides rightly by the grammar of JSON, with documents
/// nested at most 127 levels deep. If it finds the end of a document, the bytes up to there are a document. If it finds
/// a wrong byte, documents can begin with the bytes before it, but none can continue with this byte. If it finds
/// neither, the text is the beginning of a document, but no document itself.
pub fn found_by_grammar()
    ensures { (text : List ℕ) → IsFound text (found_in text) }
{}
