ghost use Rattle.std.specs.Prelude.{◌≡◌, ◌≤◌, ◌++◌, ℕ, List, [], length};
ghost use Rattle.std.specs.List.{AllByRecursion};
ghost use Rattle.fare_frame.specs.Grammar.{frame_bytes, IsFrame, IsRest, IsFault};
ghost use Rattle.fare_frame.specs.Reading.{Spells, HasNoFrame, IsFed, stream_of, frames_of};
ghost use Rattle.fare_frame.specs.declared.fault.ReadFault.{ReadFault};
ghost use Rattle.fare_frame.specs.declared.frame.Frame.{Frame};

/// A frame has one spelling, no other frame has it, and it begins no other's: where two frames' bytes begin
/// the same stream, the frames are one, and so is what is behind them.
pub fn no_spelling_begins_another()
    ensures { (f g : Frame) (xs ys : List ℕ) → IsFrame f → IsFrame g → frame_bytes f ++ xs ≡ frame_bytes g ++ ys → (f ≡ g) × (xs ≡ ys) }
{}

/// A stream is read in one way: up to a rest where no whole frame stands, only one list of frames is spelled.
pub fn a_stream_has_one_reading()
    ensures { (fs gs : List Frame) (bytes r s : List ℕ) → Spells bytes fs r → Spells bytes gs s → HasNoFrame r → HasNoFrame s → (fs ≡ gs) × (r ≡ s) }
{}

/// It doesn't matter how a stream is cut: after any list of pieces, all frames that a reader handed out are
/// the only ones of which the stream so far is the spellings, up to a rest where no whole frame stands.
pub fn pieces_are_one_stream()
    ensures whole { (turns : List (List ℕ × List Frame)) (rest : List ℕ) → IsFed [] turns rest → Spells (stream_of turns) (frames_of turns) rest }
    ensures only { (turns : List (List ℕ × List Frame)) (rest : List ℕ) → IsFed [] turns rest → HasNoFrame rest → (gs : List Frame) (s : List ℕ) → Spells (stream_of turns) gs s → HasNoFrame s → (frames_of turns ≡ gs) × (rest ≡ s) }
{}

/// What stands at a frame's place is one thing: less than a frame, one fault, or a frame. What is less than a
/// frame has at most 50 bytes.
pub fn a_place_holds_one_thing()
    ensures rest { (bytes : List ℕ) (fault : ReadFault) → IsRest bytes → IsFault bytes fault → ⊥ }
    ensures fault { (bytes : List ℕ) (a b : ReadFault) → IsFault bytes a → IsFault bytes b → a ≡ b }
    ensures frame { (f : Frame) (more : List ℕ) → IsFrame f → HasNoFrame (frame_bytes f ++ more) → ⊥ }
    ensures short { (bytes : List ℕ) → IsRest bytes → length bytes ≤ 50 }
{}
