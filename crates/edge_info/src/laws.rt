//! What is read was written so, and what was written is read again.
ghost use Rattle.std.specs.Prelude.{◌≡◌, ◌+◌, ◌-◌, ◌<◌, ◌≤◌, ◌^◌, ℕ, List, Ok, Err, length, replicate};
ghost use Rattle.section_grammar.specs.WordBytes.{IsByteList};
ghost use Rattle.section_grammar.specs.Answers.{FailedCheck, Check};
ghost use Rattle.edge_info.specs.declared.infos.Info.{Info};
ghost use Rattle.edge_info.specs.Checks.{EntryFails, TextFails, PaddingFails};
ghost use Rattle.edge_info.specs.Entries.{InfosPass, AreInfos, infos_bytes};
ghost use Rattle.edge_info.specs.declared.infos.InfoSet.{InfoSet};
ghost use Rattle.edge_info.specs.InfoSets.{gap, padding_at, info_set_at, SpellsInfos};
ghost use Rattle.edge_info.specs.EntryReading.{entries_at};
ghost use Rattle.edge_info.specs.Texts.{TextsPass, AreTexts, texts_bytes};
ghost use Rattle.edge_info.specs.TextReading.{texts_at};

/// Entries that are read are good and were spelled so; good entries are read again from their bytes. Entries that pass
/// are good where 32 bits can say how many their bytes are.
pub fn entries_law()
    ensures found { (end count : ℕ) (section : List ℕ) (infos : List Info) → IsByteList section
        → entries_at end count section ≡ Ok infos → AreInfos count infos × (section ≡ infos_bytes infos) }
    ensures spelled { (end count : ℕ) (infos : List Info) → AreInfos count infos
        → entries_at end count (infos_bytes infos) ≡ Ok infos }
    ensures bounded { (count : ℕ) (infos : List Info) → InfosPass count infos → length (infos_bytes infos) < 2 ^ 32
        → AreInfos count infos }
    ensures passes { (count : ℕ) (infos : List Info) → AreInfos count infos → InfosPass count infos }
    ensures fails { (end count : ℕ) (section : List ℕ) (failure : FailedCheck) → IsByteList section
        → entries_at end count section ≡ Err failure
        → (at : ℕ) × EntryFails count section at × (failure ≡ Check 13 (end - (length section - at))) }
    ensures first { (end count : ℕ) (section : List ℕ) (at : ℕ) → IsByteList section → EntryFails count section at
        → entries_at end count section ≡ Err (Check 13 (end - (length section - at))) }
{}

/// Texts that are read are those of the entries' names and were spelled so; such texts are read again from their bytes.
/// Texts that pass are such where 32 bits can say how many their bytes are.
pub fn texts_law()
    ensures found { (end : ℕ) (names : List ℕ) (count : ℕ) (section : List ℕ) (texts : List (List ℕ)) → IsByteList section
        → texts_at end names count section ≡ Ok texts
        → AreTexts names texts × (section ≡ texts_bytes texts) × (length texts ≡ count) }
    ensures spelled { (end : ℕ) (names : List ℕ) (texts : List (List ℕ)) → AreTexts names texts
        → texts_at end names (length texts) (texts_bytes texts) ≡ Ok texts }
    ensures bounded { (names : List ℕ) (texts : List (List ℕ)) → TextsPass names texts → length (texts_bytes texts) < 2 ^ 32
        → AreTexts names texts }
    ensures passes { (names : List ℕ) (texts : List (List ℕ)) → AreTexts names texts → TextsPass names texts }
    ensures fails { (end : ℕ) (names : List ℕ) (count : ℕ) (section : List ℕ) (failure : FailedCheck) → IsByteList section
        → texts_at end names count section ≡ Err failure
        → (at : ℕ) × TextFails names count section at × (failure ≡ Check 15 (end - (length section - at))) }
    ensures first { (end : ℕ) (names : List ℕ) (count : ℕ) (section : List ℕ) (at : ℕ) → IsByteList section
        → TextFails names count section at
        → texts_at end names count section ≡ Err (Check 15 (end - (length section - at))) }
{}

/// Padding that is read is zeros, and zeros are read again.
pub fn padding_law()
    ensures found { (end : ℕ) (bytes : List ℕ) (done : Unit {0}) → padding_at end bytes ≡ Ok done
        → bytes ≡ replicate (length bytes) 0 }
    ensures spelled { (end count : ℕ) → padding_at end (replicate count 0) ≡ Ok tt }
    ensures fails { (end : ℕ) (bytes : List ℕ) (failure : FailedCheck) → padding_at end bytes ≡ Err failure
        → (at : ℕ) × PaddingFails bytes at × (failure ≡ Check 16 (end - (length bytes - at))) }
    ensures first { (end : ℕ) (bytes : List ℕ) (at : ℕ) → PaddingFails bytes at
        → padding_at end bytes ≡ Err (Check 16 (end - (length bytes - at))) }
{}

/// Infos that are read were spelled so, and infos are read again from their bytes: no bytes spell two sets, no set has
/// two spellings, and bytes spell one exactly where no check fails.
pub fn infos_law()
    ensures found { (info_len text_len count : ℕ) (bytes : List ℕ) (set : InfoSet) → IsByteList bytes
        → length bytes ≡ info_len + text_len + gap (info_len + text_len)
        → info_set_at info_len text_len count bytes ≡ Ok set → SpellsInfos bytes info_len text_len count set }
    ensures spelled { (info_len text_len count : ℕ) (bytes : List ℕ) (set : InfoSet)
        → SpellsInfos bytes info_len text_len count set → info_set_at info_len text_len count bytes ≡ Ok set }
{
    entries_law();
    texts_law();
    padding_law();
}
