//! Worked lists: small packed sections, each with the text that is put after the start of its line.
//! They show that contents are listed through two packed sections, and each reason why there are no
//! such lines. The functions do nothing: their contracts are the lists.

ghost use Rattle.std.specs.Prelude.{[], codes, true, false};
ghost use Rattle.fv_open.specs.Words.{empty_section, lzma_a, three_bytes};
ghost use Rattle.fv_opened.specs.OpenedTexts.{PackedText};
ghost use Rattle.fv_opened.specs.WorkedLists.{budget_of, compression_of, stored_section};

/// Packed sections whose contents are listed: contents of no bytes, an empty section, and an empty
/// section in another packed section. Each opened section counts for 65,536 bytes.
pub fn listed_sections()
    ensures none { PackedText 8 0 (budget_of 200000 false) (compression_of 0 []) (codes " stored 0\n") (budget_of 134464 false) }
    ensures one { PackedText 8 0 (budget_of 200000 false) (compression_of 0 empty_section)
        (codes " stored 4\n  section 0 type 19 short body 0\n") (budget_of 134464 false) }
    ensures inner { PackedText 8 1 (budget_of 200000 false) (compression_of 0 stored_section)
        (codes " stored 13\n    section 0 type 01 short body 9 stored 4\n      section 0 type 19 short body 0\n")
        (budget_of 68928 false) }
{}

/// Packed sections whose contents are not listed. The budget becomes less by 16 MiB if a decoder may
/// have worked.
pub fn other_sections()
    ensures no_sections { PackedText 8 0 (budget_of 200000 false) (compression_of 0 three_bytes)
        (codes " stored 3 not sections: fault 20 at +0\n") (budget_of 134464 false) }
    ensures unknown { PackedText 8 0 (budget_of 200000 false) (compression_of 3 three_bytes)
        (codes " not opened: section fault 2 at +8\n") (budget_of 200000 false) }
    ensures long { PackedText 8 0 (budget_of 2 false) (compression_of 0 three_bytes)
        (codes " not opened: section fault 5 at +9\n") (budget_of 0 false) }
    ensures spent { PackedText 8 0 (budget_of 0 false) (compression_of 0 [])
        (codes " not opened: total limit reached\n") (budget_of 0 false) }
    ensures deep { PackedText 0 0 (budget_of 200000 false) (compression_of 0 []) (codes " not opened: nested too deep\n")
        (budget_of 200000 false) }
    ensures memory { PackedText 8 0 (budget_of 200000 false) (compression_of 2 lzma_a) (codes " not opened: out of memory\n")
        (budget_of 0 true) }
{}
