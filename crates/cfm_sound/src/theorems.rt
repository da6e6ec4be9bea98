//! The laws of containers in which no error is found, and of those that were linked.
ghost use Rattle.cfm_sound.specs.Named.{NamesOnlyUnsound};
ghost use Rattle.cfm_sound.specs.Placed.{PlacedAreSound};
ghost use Rattle.cfm_sound.specs.Stubbed.{StubbedPrepare};
ghost use Rattle.cfm_sound.specs.Written.{LinkedAreSound};

/// A container in which no error is found, and nothing is left unverified, is never named, whatever the limits were. If a
/// preparation reports an error of 1 to 39, of a container, a loader section, packed data or a relocation program, it names a
/// fragment whose container isn't sound: within any limits it has an error, or is too large to be verified as a whole. So a
/// sound container prepares wherever its libraries resolve and its sections find room, whichever other fragments and
/// addresses it meets.
#[tactic(auto, using(crate::proofs::NamedLemmas::names_only_unsound))]
pub fn sound_containers_are_never_named()
    ensures { NamesOnlyUnsound }
{}

/// What a preparation places is sound. So no error is found in it, whatever the limits are: a container with an error is never
/// placed.
pub fn placed_containers_are_sound()
    ensures { PlacedAreSound }
{}

/// What `link` wrote is sound. Within the limits for one container, or greater ones, no error is found in it, and only packed
/// data may be left unverified.
#[tactic(auto, using(crate::proofs::WrittenLemmas::linked_are_sound))]
pub fn linked_containers_are_sound()
    ensures { LinkedAreSound }
{}

/// Whatever sound containers you have, you can see their memory. Take the pairs of a store in whose containers no error is found and
/// nothing is left unverified, and after them the pairs of what `cfm_stubs::stubs` returns for this store, with numbers. Then a
/// preparation of any of its names, by whichever rule its sections are placed, ends with no error but 65 and 66 (loops), 67 (room), 69
/// (connections), 99 (memory), and 70 and 75 (bounds of the context), and with 62, 63 and 64 only for a library that was there before.
/// Each import from a stub means the number that the stub's exports have for its name.
#[tactic(auto, using(crate::proofs::StubbedLemmas::stubbed_prepare))]
pub fn stubbed_containers_prepare()
    ensures { StubbedPrepare }
{}
