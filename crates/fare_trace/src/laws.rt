//! Laws of a trace. Each is a function that does nothing, and its contract is the law.
ghost use Rattle.std.specs.Prelude.{◌≡◌, ◌≢◌, ℕ, List, map};
ghost use Rattle.fare_scheme.specs.Values.{SchemeValue};
ghost use Rattle.fare_lines.specs.declared.line.Line.{Line};
ghost use Rattle.fare_lines.specs.declared.line.Line.TheVariants.{Setup};
ghost use Rattle.fare_lines.specs.declared.line.SchemeLine.{SchemeLine};
ghost use Rattle.fare_setup.specs.Making.{Make};
ghost use Rattle.fare_event.specs.declared.reply.Reply.{Reply};
ghost use Rattle.fare_trace.specs.Answers.{AnswersAll, IsOutput, first_stage};
ghost use Rattle.fare_trace.specs.Schemes.{Makes, MakesNone};
ghost use Rattle.fare_trace.specs.declared.schemes.SchemeFault.{SchemeFault};
ghost use Rattle.fare_trace.specs.declared.schemes.SchemeFault.TheVariants.{Memory};

/// The replies to lines are determined by the lines, and so are the bytes that spell them.
pub fn a_trace_has_one_answer()
    ensures replies { (lines : List Line) (first second : List Reply) → AnswersAll first_stage lines first → AnswersAll first_stage lines second → first ≡ second }
    ensures output { (lines : List Line) (first second : List ℕ) → IsOutput lines first → IsOutput lines second → first ≡ second }
{}

/// Lines from which `scheme_of` gives a scheme make one scheme, but for the clock, and those of which it says that they make
/// none make none. Lines that an empty draft takes, and of which the seal gives a scheme, make that scheme.
pub fn lines_make_one_scheme()
    ensures one { (lines : List Line) (one other : SchemeValue) → Makes lines one → Makes lines other → one ≡ record other { zone = one.zone } }
    ensures none { (lines : List Line) (scheme : SchemeValue) (fault : SchemeFault) → MakesNone lines fault → fault ≢ Memory → ¬ Makes lines scheme }
    ensures drafted { (lines : List SchemeLine) (scheme : SchemeValue) → Make lines scheme → Makes (map {B = Line} Setup lines) scheme }
{}
