//! What holds of texts and postings, whoever writes or reads them.

ghost use Rattle.std.specs.Prelude.{◌≡◌, ℕ, ◌<◌, List, length, map, All, Some};
ghost use Rattle.std.specs.List.Sorted.{IsStrictlyIncreasing};
ghost use Rattle.gd_board.specs.declared.posting.Posting.{Posting};
ghost use Rattle.gd_body.specs.Body.{IsRefused, posting_in};
ghost use Rattle.gd_body.specs.Publishable.{IsPublishable};
ghost use Rattle.gd_body.specs.Rows.{body_text};
ghost use Rattle.gd_body.specs.declared.fault.BodyFault.TheVariants.{Damaged};

/// The text of a posting that a book may publish says this very posting: it is never too long, and `body_of` never answers
/// `Damaged` for it. There is such a posting.
pub fn publishable_posting_reads_back()
    ensures read_back { (p : Posting) → IsPublishable p → posting_in (body_text p) ≡ Some p }
    ensures never_damaged { (p : Posting) → IsPublishable p → IsRefused p Damaged → ⊥ }
    ensures some { (p : Posting) × IsPublishable p }
{}

/// A posting that a text says bumps lines of its question, each before the one that follows.
pub fn bumped_lines_rise()
    ensures lines { (text : List ℕ) (p : Posting) → posting_in text ≡ Some p
        → All (λ b. b.0 < length p.question.asked.lines) p.bumped }
    ensures rising { (text : List ℕ) (p : Posting) → posting_in text ≡ Some p
        → IsStrictlyIncreasing (map (λ b. b.0) p.bumped) }
{}
