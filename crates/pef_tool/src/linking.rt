ghost use Rattle.pef_tool.specs.Kept.Linking.{CertifiesText, LinksText, ReadsScript};

use pef_certify::ScriptCertificates;
use pef_faults::Fault;
use pef_script::Script;
use pef_write::{LinkedContainer, link_container};
use std::alloc::Global;

/// Parses and links the script in a text.
pub fn link_text(alloc: Global, text: &[u8]) -> Result<LinkedContainer, Fault<'_>>
    ensures { LinksText text.now result }
{
    let script = match read_script(alloc, text) {
        Ok(script) => script,
        Err(fault) => return Err(fault),
    };
    match link_container(alloc, &script) {
        Ok(linked) => Ok(linked),
        Err(_) => Err(Fault::OutOfMemory),
    }
}

/// Parses and links the script in a text. Returns its certificates.
pub fn certify_text(alloc: Global, text: &[u8]) -> Result<ScriptCertificates, Fault<'_>>
    ensures { CertifiesText text.now result }
{
    let script = match read_script(alloc, text) {
        Ok(script) => script,
        Err(fault) => return Err(fault),
    };
    match ScriptCertificates::of(alloc, &script) {
        Ok(certificates) => Ok(certificates),
        Err(_) => Err(Fault::OutOfMemory),
    }
}

/// Parses the script in a text.
pub fn read_script<'a>(alloc: Global, text: &'a [u8]) -> Result<Script<'a>, Fault<'a>>
    ensures { ReadsScript text.now result }
{
    match Script::read(alloc, text) {
        Ok(script) => Ok(script),
        Err(fault) => Err(Fault::Script { fault, text }),
    }
}
