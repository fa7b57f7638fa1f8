//! The picks that a text names, and those that effects name.
ghost use Rattle.std.specs.Prelude.{◌≡◌, ◌++◌, [], List, ℕ};
ghost use Rattle.switch_engine.specs.declared.effect.NetEffect.{NetEffect};
ghost use Rattle.event_lines.specs.declared.refusal.Refusal.{Refusal};
ghost use Rattle.event_lines.specs.Lines.{end_line, accepted_lines, refused_line};
ghost use Rattle.event_lines.specs.Picks.{AreNamed, AreWholeLines, picks_in, picks_of};

/// The picks that are read off the lines of an accepted event are those of its effects. A refused event and the last line
/// name none. Each of these texts is made of whole lines, and the picks of such a text and of what comes after it are those
/// of the one and then those of the other.
pub fn picks_are_read()
    ensures accepted { (number walks : ℕ) (effects : List NetEffect)
        → AreNamed effects → picks_in (accepted_lines number effects walks) ≡ picks_of effects }
    ensures refused { (number : ℕ) (why : Refusal) → picks_in (refused_line number why) ≡ [] }
    ensures end { (events accepted refused waiting : ℕ) → picks_in (end_line events accepted refused waiting) ≡ [] }
    ensures joined { (text more : List ℕ) → AreWholeLines text → picks_in (text ++ more) ≡ picks_in text ++ picks_in more }
    ensures accepted_whole { (number walks : ℕ) (effects : List NetEffect) → AreWholeLines (accepted_lines number effects walks) }
    ensures refused_whole { (number : ℕ) (why : Refusal) → AreWholeLines (refused_line number why) }
    ensures end_whole { (events accepted refused waiting : ℕ) → AreWholeLines (end_line events accepted refused waiting) }
{}
