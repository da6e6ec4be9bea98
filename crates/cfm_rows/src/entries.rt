//! The entry points of a prepared fragment as an object of JSON.
ghost use Rattle.std.specs.Prelude.{◌≡◌};
ghost use Rattle.pef_ports.specs.Sent.{Sends};
ghost use Rattle.pef_rows.specs.Tokens.{number_or_null, token_text};
ghost use Rattle.cfm_rows.specs.Entries.{addresses_object, entries_object};

use cfm_prepare::Entries;
use pef_ports::{Page, Sink, StreamFault};
use pef_rows::{Token, number_or_null, print_tokens};

/// Prints the addresses of a fragment's entry points.
pub(crate) fn print_entries<W: Sink>(
    out: &mut W,
    page: &mut Page,
    entries: Option<Entries>,
) -> Result<(), StreamFault>
    ensures { Sends result (W.stream out.old) (W.stream out.new) page.old.items page.new.items (entries_object entries) }
{
    match entries {
        Some(entries) => print_addresses(out, page, entries),
        None => {
            let none = Entries {
                init: None,
                main: None,
                term: None,
            };
            print_addresses(out, page, none)
        }
    }
}

/// Prints the addresses of entry points, each as `null` if there is none.
#[tactic(auto, unfolding(crate::specs::Entries::addresses_object))]
fn print_addresses<W: Sink>(
    out: &mut W,
    page: &mut Page,
    entries: Entries,
) -> Result<(), StreamFault>
    ensures { Sends result (W.stream out.old) (W.stream out.new) page.old.items page.new.items (addresses_object entries.main entries.init entries.term) }
{
    print_tokens(
        out,
        page,
        &[
            Token::Text(b"{\"main\":"),
            address_or_null(entries.main),
            Token::Text(b",\"init\":"),
            address_or_null(entries.init),
            Token::Text(b",\"term\":"),
            address_or_null(entries.term),
            Token::Text(b"}"),
        ],
    )
}

/// Returns an address as a value of JSON, or `null`.
pub(crate) fn address_or_null(address: Option<u32>) -> Token<'static>
    ensures { token_text result ≡ number_or_null address }
{
    match address {
        Some(address) => Token::Number(u64::from(address)),
        None => Token::Text(b"null"),
    }
}
