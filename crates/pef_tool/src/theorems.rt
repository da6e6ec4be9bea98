//! Theorems on the commands. The functions do nothing.
ghost use Rattle.std.specs.Prelude.{◌≡◌, ◌⊎◌, ◌≤◌, List, Result, Ok, length};
ghost use Rattle.cfm_memory.specs.Extents.{LackRoom, no_instances};
ghost use Rattle.pef_headline.specs.Now.{described_extents};
ghost use Rattle.pef_ports.specs.Ports.{Stream};
ghost use Rattle.pef_refusals.specs.Help.{help_of};
ghost use Rattle.pef_faults.specs.Faults.{fault_number};
ghost use Rattle.pef_faults.specs.declared.fault.Fault.{Fault};
ghost use Rattle.pef_tool.specs.Answers.Answers.{IsDelivered};
ghost use Rattle.pef_tool.specs.Answers.Faults.{fault_answer};
ghost use Rattle.pef_faults.specs.Notes.Notes.{note_of};
ghost use Rattle.pef_tool.specs.Explain.{Explains, NotesHelp};
ghost use Rattle.pef_tool.specs.declared.answers.outcome.Outcome.{Outcome};
ghost use Rattle.pef_tool.specs.declared.answers.outcome.Outcome.TheVariants.{OutputFailed};
ghost use Rattle.pef_script.specs.WellFormed.{ScriptHolds};
ghost use Rattle.pef_tool.specs.Limits.{memory_limit};
ghost use Rattle.pef_cert.specs.Text.Printed.{certificates_text};
ghost use Rattle.pef_script.specs.Text.Grammar.{script_of};
ghost use Rattle.pef_script.specs.Script.{DescribedScript};
ghost use Rattle.pef_tool.specs.Check.{Judges, Texts};
ghost use Rattle.pef_tool.specs.Distances.{IsYesToAll};
ghost use Rattle.pef_tool.specs.declared.check.Verdict.{Verdict};
ghost use Rattle.pef_tool.specs.Extract.{ExtractsInspected};
ghost use Rattle.pef_tool.specs.PreparedAsLoaded.{FilesHoldMemory, PreparesAsLoad};
ghost use Rattle.pef_write.specs.Linked.{CertifiedContainer, IsCertifiedLink};

/// `check` accepts the certificates that `distances` prints of a script. It answers yes for the certificate of each
/// section, with the number of halfwords of the section's program, or reports that an allocation failed.
pub fn distances_are_accepted()
    ensures { (texts : Texts) (script : DescribedScript) (l : CertifiedContainer) (judged : Result (List Verdict) Fault) → script_of texts.script ≡ Ok script → IsCertifiedLink script l → texts.certificates ≡ certificates_text l.certificates
        → Judges texts judged → IsYesToAll l.certificates judged }
{}

/// There is always room in the memory of `show` for up to fifteen sections of a script, whatever their lengths and
/// alignments.
pub fn fifteen_sections_find_room()
    ensures { (script : DescribedScript) → ScriptHolds script → length script.sections ≤ 15 → LackRoom (no_instances memory_limit) (described_extents script) → ⊥ }
{}

/// After a run that reported an error, [`explain`](crate::explain) writes the help for this error's number and what is
/// known of this error, unless the output failed.
pub fn faults_are_explained()
    ensures { (fault : Fault) (outcome : Outcome) (out printed notes noted : Stream) → IsDelivered out printed (fault_answer fault) outcome → Explains outcome notes noted
        → (outcome ≡ OutputFailed) ⊎ NotesHelp (help_of (fault_number fault)) (note_of fault) notes noted }
{}

/// `extract '#N'` takes the container with a number from the bytes that `inspect` reads of it: all of them, or if they are a
/// container, one with the same header, sections, loader section and names.
#[tactic(auto, using(crate::proofs::ExtractLemmas::extracts_inspected))]
pub fn extracts_what_is_inspected()
    ensures { ExtractsInspected }
{}

/// What `prepare` prints of memory is what `load` prints for files with the names and the bytes of the fragments and the stubs that
/// `prepare` is made of. The lines of the stubs and of the sources follow.
#[tactic(auto, using(crate::proofs::AsLoadLemmas::as_load))]
pub fn prepares_as_load()
    ensures { PreparesAsLoad }
{}

/// The files that `prepare -o` writes for a fragment have the bytes of its sections, as `load` prints them.
#[tactic(auto, using(crate::proofs::AsLoadLemmas::files_hold))]
pub fn files_hold_memory()
    ensures { FilesHoldMemory }
{}
