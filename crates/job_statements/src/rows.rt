//! Rows of the definitions: which texts some lines are.
ghost use Rattle.std.specs.Prelude.{◌≡◌, None, [], ◌∷◌, true, false, codes};
ghost use Rattle.job_statements.specs.Texts.{text_at, texts_from};

/// A line that goes on keeps its blanks before the sign, and the next line loses those in front.
#[tactic(auto, unfolding(crate::specs::Texts::texts_from))]
pub fn continued_lines()
    ensures joined { texts_from None 5 (codes "CHGVAR VAR(&A) + " ∷ codes "  VALUE(1)" ∷ []) ≡ text_at 5 (codes "CHGVAR VAR(&A) VALUE(1)") true ∷ [] }
    ensures thrice { texts_from None 5 (codes "IF+" ∷ codes "+" ∷ codes " ELSE" ∷ codes "ENDDO" ∷ []) ≡ text_at 5 (codes "IFELSE") true ∷ text_at 8 (codes "ENDDO") true ∷ [] }
    ensures unfinished { texts_from None 5 (codes "RETURN +" ∷ []) ≡ text_at 5 (codes "RETURN ") false ∷ [] }
{}

/// Blank lines and remarks are skipped, but not where a statement goes on.
#[tactic(auto, unfolding(crate::specs::Texts::texts_from))]
pub fn skipped_lines()
    ensures skipped { texts_from None 5 (codes "/* A +" ∷ codes " " ∷ [] ∷ codes "RETURN" ∷ []) ≡ text_at 8 (codes "RETURN") true ∷ [] }
    ensures inside { texts_from None 5 (codes "RETURN +" ∷ codes "/* A" ∷ []) ≡ text_at 5 (codes "RETURN /* A") true ∷ [] }
{}
