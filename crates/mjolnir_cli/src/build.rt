//! The command `build`: the tiles of an extract.

ghost use Rattle.std.specs.Prelude.{◌≡◌, ℕ, List, [], ◌∷◌, ◌++◌, length, map, All, true, Some, None, IsSome, false, IfOk, IfErr, OnOk};
ghost use Rattle.host_port.specs.Told.{named};
ghost use Rattle.host_port.specs.HostState.{OnlyOpens, OnlyReads};
ghost use Rattle.tile_bytes.specs.Header.{are_modes};
ghost use Rattle.build_flow.specs.Unbuilt.{unbuilt};
ghost use Rattle.build_flow.specs.FolderFiles.{limit_passed};
ghost use Rattle.mjolnir_cli.specs.Commands.{IsIn};
ghost use Rattle.mjolnir_cli.specs.Commands.BuildCommand.{file_in, output_files, IsBuilt, IsBuildRefused, IsOfExtract};
ghost use Rattle.mjolnir_cli.specs.declared.failure.Failure.TheVariants.{OutOfMemory};
ghost use Rattle.mjolnir_cli.specs.Failures.{cause_of};
ghost use Rattle.mjolnir_cli.specs.Puts.{paths};
ghost use Rattle.mjolnir_cli.specs.Listing.{IfOfInput, IsMet, CountedRead, IfRead};

use crate::answer::Answer;
use crate::failure::Failure;
use build_flow::{first_unbuilt, folder_of};
use host_port::{Bytes, Host, HostFiles, Text};
use osm_blocks::read_extract;
use osm_model::Extract;
use std::alloc::{AllocError, Global};

/// What is put and said for the extract of that path and the asked modes: the files of its tiles, in the folder
/// `output`; nothing is said. The extract is read to its end, and all files are made, before the call returns.
pub(crate) fn tiles_to_put<H: Host>(
    alloc: Global,
    input: &str,
    output: &str,
    modes: u16,
    host: &mut H,
) -> Result<Answer, Failure>
    requires { are_modes modes ≡ true }
    ensures built { IfOk result (λ answer. (bytes : List ℕ) → named input.now (H.state host.old).told ≡ Some bytes → IsBuilt output.now modes bytes answer) }
    ensures paths { IfOk result (λ answer. All (IsIn output.now) (paths answer.files)) }
    ensures whole { OnOk result ((bytes : List ℕ) → named input.now (H.state host.old).told ≡ Some bytes → (H.state host.new).told.place ≡ Some (length bytes)) }
    ensures refused { IfErr result (λ failure. (bytes : List ℕ) → named input.now (H.state host.old).told ≡ Some bytes → IfOfInput (cause_of failure) (IsBuildRefused modes bytes failure)) }
    ensures met { IfErr result (λ failure. IsMet (cause_of failure)) }
    ensures frame { OnlyOpens (H.state host.old) (H.state host.new) }
    ensures faults { CountedRead (H.state host.old).read_faults (H.state host.new).read_faults result }
    ensures cause { (H.state host.old).willing → IsSome (named input.now (H.state host.old).told) → IfRead result ⊥ }
{
    host.open_input(input)?;
    tiles_of_input(alloc, output, modes, host)
}

/// The same for an input that stands at its start. It is read to its end.
fn tiles_of_input<H: Host>(
    alloc: Global,
    output: &str,
    modes: u16,
    host: &mut H,
) -> Result<Answer, Failure>
    requires { are_modes modes ≡ true }
    ensures built { IfOk result (λ answer. (bytes : List ℕ) → (H.state host.old).told.input ≡ Some bytes → (H.state host.old).told.place ≡ Some 0 → IsBuilt output.now modes bytes answer) }
    ensures paths { IfOk result (λ answer. All (IsIn output.now) (paths answer.files)) }
    ensures whole { OnOk result ((bytes : List ℕ) → (H.state host.old).told.input ≡ Some bytes → (H.state host.old).told.place ≡ Some 0 → (H.state host.new).told.place ≡ Some (length bytes)) }
    ensures refused { IfErr result (λ failure. (bytes : List ℕ) → (H.state host.old).told.input ≡ Some bytes → (H.state host.old).told.place ≡ Some 0 → IfOfInput (cause_of failure) (IsBuildRefused modes bytes failure)) }
    ensures met { IfErr result (λ failure. IsMet (cause_of failure)) }
    ensures frame { OnlyReads (H.state host.old) (H.state host.new) }
    ensures faults { CountedRead (H.state host.old).read_faults (H.state host.new).read_faults result }
    ensures cause { (H.state host.old).willing → IfRead result ((H.state host.old).told.is_open ≡ Some false) }
{
    match read_extract(alloc, host) {
        Ok(extract) => tiles_of_extract(alloc, extract, output, modes),
        Err(fault) => Err(Failure::from(fault)),
    }
}

/// The same for an extract.
fn tiles_of_extract(
    alloc: Global,
    extract: Extract,
    output: &str,
    modes: u16,
) -> Result<Answer, Failure>
    requires { are_modes modes ≡ true }
    ensures files { IfOk result (λ answer. answer.files ≡ output_files output.now modes extract) }
    ensures silent { IfOk result (λ answer. answer.text ≡ []) }
    ensures built { OnOk result (unbuilt extract ≡ None) }
    ensures within { OnOk result (limit_passed extract modes ≡ None) }
    ensures refused { IfErr result (λ failure. IsOfExtract modes failure extract) }
{
    match first_unbuilt(&extract) {
        Some(id) => Err(Failure::NotBuilt { id }),
        None => match folder_of(alloc, extract, modes) {
            Ok(files) => answer_with(alloc, output, files),
            Err(fault) => Err(Failure::from(fault)),
        },
    }
}

/// The answer that puts these files in the folder `output`, and says nothing.
fn answer_with(alloc: Global, output: &str, files: HostFiles) -> Result<Answer, Failure>
    ensures files { IfOk result (λ answer. answer.files ≡ map (file_in output.now) files) }
    ensures silent { IfOk result (λ answer. answer.text ≡ []) }
    ensures memory { IfErr result (λ failure. failure ≡ OutOfMemory) }
{
    match in_folder(alloc, output, files) {
        Ok(files) => Ok(Answer {
            files,
            text: Text::from(String::new(alloc)),
        }),
        Err(error) => Err(Failure::from(error)),
    }
}

/// These files, in the folder `output`. Their bytes are moved, not copied.
fn in_folder(alloc: Global, output: &str, files: HostFiles) -> Result<HostFiles, AllocError>
    ensures { IfOk result (λ placed. placed ≡ map (file_in output.now) files) }
{
    let mut placed = HostFiles::new(alloc);
    for file in Vec::from(files) {
        place_file(alloc, output, file, &mut placed)?;
    }
    Ok(placed)
}

/// Adds a file, in the folder `output`.
fn place_file(
    alloc: Global,
    output: &str,
    file: (Text, Bytes),
    placed: &mut HostFiles,
) -> Result<(), AllocError>
    ensures { OnOk result (placed.new ≡ placed.old ++ file_in output.now file ∷ []) }
{
    let (path, bytes) = file;
    let path = format!(in alloc; "{output}/{}", path.as_str())?;
    placed.push((Text::from(path), bytes))
}
