//! Reports and lists that are written out.

ghost use Rattle.std.specs.Prelude.{◌≡◌, [], ◌∷◌, codes, ◌++◌};
ghost use Rattle.build_report.specs.Worked.{two_nodes, two_nodes_text, two_skipped, two_skipped_text};
ghost use Rattle.build_report.specs.Reports.{report_bytes};
ghost use Rattle.build_report.specs.TileLists.{tile_list};

/// The texts of two reports.
pub fn reports_written_out()
    ensures two_nodes { report_bytes two_nodes ≡ two_nodes_text }
    ensures two_skipped { report_bytes two_skipped ≡ two_skipped_text }
{}

/// The texts of two lists: of no tile, and of the one tile 519120 of level 2, whose file has 232 bytes.
pub fn lists_written_out()
    ensures none { tile_list [] [] ≡ codes "mjolnir-tiles 1" ++ 10 ∷ [] }
    ensures one { tile_list (4152962 ∷ []) (232 ∷ []) ≡ codes "mjolnir-tiles 1" ++ 10 ∷ codes "2/000/519/120.gph 232" ++ 10 ∷ [] }
{}
