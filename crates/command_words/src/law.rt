//! Lists of words that are written out, each with what it asks for, by hand from the rules of clap and of the values.
//! And what holds of each list of words.

ghost use Rattle.std.specs.Prelude.{◌≡◌, ◌<◌, ℕ, List, [], ◌∷◌, Some, None, bit_and, codes};
ghost use Rattle.command_words.specs.declared.command.BuildOptions.{BuildOptions};
ghost use Rattle.command_words.specs.declared.command.Request.TheVariants as request;
ghost use Rattle.command_words.specs.Asks.{asked_by};

/// What some lists of words ask for: options, in any order and in both forms.
pub fn options_asked()
    ensures short { asked_by (codes "build" ∷ codes "--output" ∷ codes "b" ∷ codes "--input=a" ∷ []) ≡ Some (request.Build (record { input = codes "a"; output = codes "b"; workers = 1; modes = 79 })) }
    ensures all_four { asked_by (codes "build" ∷ codes "--modes=truck" ∷ codes "--workers" ∷ codes "7" ∷ codes "--output=b" ∷ codes "--input" ∷ codes "a" ∷ []) ≡ Some (request.Build (record { input = codes "a"; output = codes "b"; workers = 7; modes = 8 })) }
    ensures equals_inside { asked_by (codes "build" ∷ codes "--input=a=b" ∷ codes "--output=c" ∷ []) ≡ Some (request.Build (record { input = codes "a=b"; output = codes "c"; workers = 1; modes = 79 })) }
    ensures space_inside { asked_by (codes "build" ∷ codes "--input" ∷ codes "a b" ∷ codes "--output=c" ∷ []) ≡ Some (request.Build (record { input = codes "a b"; output = codes "c"; workers = 1; modes = 79 })) }
    ensures input_twice { asked_by (codes "build" ∷ codes "--input" ∷ codes "a" ∷ codes "--input" ∷ codes "b" ∷ codes "--output" ∷ codes "c" ∷ []) ≡ None }
    ensures modes_twice { asked_by (codes "build" ∷ codes "--modes" ∷ codes "auto" ∷ codes "--modes" ∷ codes "bus" ∷ codes "--input=a" ∷ codes "--output=b" ∷ []) ≡ None }
    ensures no_output { asked_by (codes "build" ∷ codes "--input=a" ∷ []) ≡ None }
    ensures no_input { asked_by (codes "build" ∷ codes "--output=b" ∷ []) ≡ None }
    ensures value_cut_off { asked_by (codes "build" ∷ codes "--output=b" ∷ codes "--input" ∷ []) ≡ None }
    ensures option_for_value { asked_by (codes "build" ∷ codes "--input" ∷ codes "--output" ∷ codes "b" ∷ []) ≡ None }
    ensures dash_for_value { asked_by (codes "build" ∷ codes "--input" ∷ codes "-x" ∷ codes "--output" ∷ codes "b" ∷ []) ≡ None }
    ensures dash_by_equals { asked_by (codes "build" ∷ codes "--input=-x" ∷ codes "--output=b" ∷ codes "--workers" ∷ codes "64" ∷ codes "--modes=bus,auto" ∷ []) ≡ Some (request.Build (record { input = codes "-x"; output = codes "b"; workers = 64; modes = 65 })) }
    ensures name_cut_short { asked_by (codes "build" ∷ codes "--in" ∷ codes "a" ∷ codes "--output" ∷ codes "b" ∷ []) ≡ None }
    ensures name_misspelt { asked_by (codes "build" ∷ codes "--inptu" ∷ codes "a" ∷ codes "--output" ∷ codes "b" ∷ []) ≡ None }
    ensures unknown_option { asked_by (codes "build" ∷ codes "--input=a" ∷ codes "--output=b" ∷ codes "--threads=2" ∷ []) ≡ None }
    ensures one_more_word { asked_by (codes "build" ∷ codes "--input=a" ∷ codes "--output=b" ∷ codes "x" ∷ []) ≡ None }
    ensures dashes_last { asked_by (codes "build" ∷ codes "--input=a" ∷ codes "--output=b" ∷ codes "--" ∷ []) ≡ Some (request.Build (record { input = codes "a"; output = codes "b"; workers = 1; modes = 79 })) }
    ensures dashes_first { asked_by (codes "build" ∷ codes "--" ∷ codes "--input=a" ∷ codes "--output=b" ∷ []) ≡ None }
    ensures empty_input { asked_by (codes "build" ∷ codes "--input=" ∷ codes "--output=b" ∷ []) ≡ None }
    ensures empty_output { asked_by (codes "build" ∷ codes "--input=a" ∷ codes "--output" ∷ codes "" ∷ []) ≡ None }
{}

/// What some lists of words ask for: numbers of workers.
pub fn workers_asked()
    ensures workers_0 { asked_by (codes "build" ∷ codes "--input=a" ∷ codes "--output=b" ∷ codes "--workers" ∷ codes "0" ∷ []) ≡ None }
    ensures workers_1 { asked_by (codes "build" ∷ codes "--input=a" ∷ codes "--output=b" ∷ codes "--workers" ∷ codes "1" ∷ []) ≡ Some (request.Build (record { input = codes "a"; output = codes "b"; workers = 1; modes = 79 })) }
    ensures workers_64 { asked_by (codes "build" ∷ codes "--input=a" ∷ codes "--output=b" ∷ codes "--workers=64" ∷ []) ≡ Some (request.Build (record { input = codes "a"; output = codes "b"; workers = 64; modes = 79 })) }
    ensures workers_65 { asked_by (codes "build" ∷ codes "--input=a" ∷ codes "--output=b" ∷ codes "--workers=65" ∷ []) ≡ None }
    ensures workers_01 { asked_by (codes "build" ∷ codes "--input=a" ∷ codes "--output=b" ∷ codes "--workers=01" ∷ []) ≡ None }
    ensures workers_plus { asked_by (codes "build" ∷ codes "--input=a" ∷ codes "--output=b" ∷ codes "--workers=+1" ∷ []) ≡ None }
    ensures workers_minus { asked_by (codes "build" ∷ codes "--input=a" ∷ codes "--output=b" ∷ codes "--workers=-1" ∷ []) ≡ None }
    ensures workers_past_64_bits { asked_by (codes "build" ∷ codes "--input=a" ∷ codes "--output=b" ∷ codes "--workers=18446744073709551617" ∷ []) ≡ None }
    ensures workers_empty { asked_by (codes "build" ∷ codes "--input=a" ∷ codes "--output=b" ∷ codes "--workers=" ∷ []) ≡ None }
    ensures workers_spaced { asked_by (codes "build" ∷ codes "--input=a" ∷ codes "--output=b" ∷ codes "--workers=1 " ∷ []) ≡ None }
{}

/// What some lists of words ask for: lists of modes.
pub fn modes_asked()
    ensures one_mode { asked_by (codes "build" ∷ codes "--input=a" ∷ codes "--output=b" ∷ codes "--modes" ∷ codes "auto" ∷ []) ≡ Some (request.Build (record { input = codes "a"; output = codes "b"; workers = 1; modes = 1 })) }
    ensures all_modes { asked_by (codes "build" ∷ codes "--input=a" ∷ codes "--output=b" ∷ codes "--modes=bus,truck,bicycle,pedestrian,auto" ∷ []) ≡ Some (request.Build (record { input = codes "a"; output = codes "b"; workers = 1; modes = 79 })) }
    ensures mode_twice { asked_by (codes "build" ∷ codes "--modes" ∷ codes "auto,auto" ∷ codes "--input" ∷ codes "a" ∷ codes "--output" ∷ codes "b" ∷ []) ≡ None }
    ensures mode_unknown { asked_by (codes "build" ∷ codes "--input=a" ∷ codes "--output=b" ∷ codes "--modes=car" ∷ []) ≡ None }
    ensures mode_upper { asked_by (codes "build" ∷ codes "--input=a" ∷ codes "--output=b" ∷ codes "--modes=Auto" ∷ []) ≡ None }
    ensures modes_empty { asked_by (codes "build" ∷ codes "--input=a" ∷ codes "--output=b" ∷ codes "--modes=" ∷ []) ≡ None }
    ensures comma_last { asked_by (codes "build" ∷ codes "--input=a" ∷ codes "--output=b" ∷ codes "--modes=auto," ∷ []) ≡ None }
    ensures comma_first { asked_by (codes "build" ∷ codes "--input=a" ∷ codes "--output=b" ∷ codes "--modes=,auto" ∷ []) ≡ None }
{}

/// What some lists of words ask for: `blobs`.
pub fn blobs_rows()
    ensures blobs_path { asked_by (codes "blobs" ∷ codes "a.pbf" ∷ []) ≡ Some (request.Blobs (codes "a.pbf")) }
    ensures blobs_hyphen { asked_by (codes "blobs" ∷ codes "-" ∷ []) ≡ Some (request.Blobs (codes "-")) }
    ensures blobs_behind_dashes { asked_by (codes "blobs" ∷ codes "--" ∷ codes "-x" ∷ []) ≡ Some (request.Blobs (codes "-x")) }
    ensures blobs_alone { asked_by (codes "blobs" ∷ []) ≡ None }
    ensures blobs_two { asked_by (codes "blobs" ∷ codes "a" ∷ codes "b" ∷ []) ≡ None }
    ensures blobs_empty { asked_by (codes "blobs" ∷ codes "" ∷ []) ≡ None }
    ensures blobs_option { asked_by (codes "blobs" ∷ codes "a" ∷ codes "--input" ∷ codes "b" ∷ []) ≡ None }
{}

/// What some lists of words ask for: `demo`.
pub fn demo_rows()
    ensures demo_least { asked_by (codes "demo" ∷ codes "2" ∷ codes "0" ∷ []) ≡ Some (request.Demo 2 0 1) }
    ensures demo_most { asked_by (codes "demo" ∷ codes "500" ∷ codes "2147483647" ∷ codes "--workers" ∷ codes "64" ∷ []) ≡ Some (request.Demo 500 2147483647 64) }
    ensures demo_option_first { asked_by (codes "demo" ∷ codes "--workers=7" ∷ codes "100" ∷ codes "1" ∷ []) ≡ Some (request.Demo 100 1 7) }
    ensures demo_1 { asked_by (codes "demo" ∷ codes "1" ∷ codes "1" ∷ []) ≡ None }
    ensures demo_501 { asked_by (codes "demo" ∷ codes "501" ∷ codes "1" ∷ []) ≡ None }
    ensures demo_seed_past { asked_by (codes "demo" ∷ codes "2" ∷ codes "2147483648" ∷ []) ≡ None }
    ensures demo_needless_zero { asked_by (codes "demo" ∷ codes "02" ∷ codes "1" ∷ []) ≡ None }
    ensures demo_one_word { asked_by (codes "demo" ∷ codes "2" ∷ []) ≡ None }
    ensures demo_three_words { asked_by (codes "demo" ∷ codes "2" ∷ codes "1" ∷ codes "3" ∷ []) ≡ None }
    ensures demo_sign { asked_by (codes "demo" ∷ codes "2" ∷ codes "-1" ∷ []) ≡ None }
{}

/// What some lists of words ask for: help, and words that name no command.
pub fn nothing_asked()
    ensures nothing { asked_by ([]) ≡ None }
    ensures empty_word { asked_by (codes "" ∷ []) ≡ None }
    ensures upper { asked_by (codes "BUILD" ∷ codes "--input=a" ∷ codes "--output=b" ∷ []) ≡ None }
    ensures help_word { asked_by (codes "help" ∷ []) ≡ None }
    ensures help_option { asked_by (codes "--help" ∷ []) ≡ None }
    ensures version { asked_by (codes "--version" ∷ []) ≡ None }
    ensures build_help { asked_by (codes "build" ∷ codes "--help" ∷ []) ≡ None }
    ensures build_h { asked_by (codes "build" ∷ codes "-h" ∷ []) ≡ None }
    ensures blobs_help { asked_by (codes "blobs" ∷ codes "--help" ∷ []) ≡ None }
{}

/// The modes that words ask for are modes: there is one, and each is among auto (1), pedestrian (2), bicycle (4),
/// truck (8) and bus (64). The call runs no code: its contract is what it is for.
pub fn modes_are_known()
    ensures some { (words : List (List ℕ)) (options : BuildOptions) → asked_by words ≡ Some (request.Build options) → 0 < options.modes }
    ensures known { (words : List (List ℕ)) (options : BuildOptions) → asked_by words ≡ Some (request.Build options) → bit_and options.modes 79 ≡ options.modes }
{}
