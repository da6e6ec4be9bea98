//! What errors and notes mean, and what to do. tools/declarations writes this file from docs/errors.table.
ghost use Rattle.std.specs.Prelude.{◌≡◌, option_map};
ghost use Rattle.pef_refusals.specs.Help.{closure_help, container_help, help_of, library_help, loader_help, mac_help, note_help, packed_help, port_help, relocation_help, script_help};

/// Returns one or two sentences on the error or the note with this number, if there is one: what it means, and what to do.
pub fn help(number: u32) -> Option<&'static str>
    ensures { option_map (λ text. text.now) result ≡ help_of number }
{
    match number {
        0..=10 => container_help(number),
        11..=20 => loader_help(number),
        21..=30 => packed_help(number),
        31..=40 => relocation_help(number),
        41..=50 => script_help(number),
        51..=70 => closure_help(number),
        71..=75 | 99..=100 => port_help(number),
        76..=98 => mac_help(number),
        101..=199 => note_help(number),
        _ => library_help(number),
    }
}

/// Returns the help on an error of a container.
#[tactic(auto, unfolding(crate::specs::Help::container_help))]
fn container_help(number: u32) -> Option<&'static str>
    ensures { option_map (λ text. text.now) result ≡ container_help number }
{
    match number {
        1 => Some(
            "The file ends inside the headers of a container. It is truncated, or it isn't a PEF container.",
        ),
        2 => Some(
            "The file doesn't begin with Joy!peff, so it isn't a PEF container. `pef prepare FILE` takes a file of the Mac. If a container is inside, `pef extract FILE '#0' OUT` takes it out.",
        ),
        3 => Some("The container isn't for PowerPC. CFM-68K containers aren't read."),
        4 => Some(
            "The container's format version isn't 1, and the format has no other. The file is damaged.",
        ),
        5 => Some(
            "The header counts more instantiated sections than sections. The file is damaged.",
        ),
        6 => Some(
            "A section's raw data passes the end of the file. The file is truncated, or a section header is damaged.",
        ),
        7 => Some(
            "An instantiated section has a kind that can't be instantiated. The file is a stub library, which only linkers read, or it is damaged.",
        ),
        8 => Some(
            "A section's image is larger than its memory, or larger than its raw data. The file is damaged.",
        ),
        9 => Some("A section's alignment is above 31. The file is damaged."),
        10 => Some(
            "The container has no loader section. Without one it can be neither listed nor loaded.",
        ),
        _ => None,
    }
}

/// Returns the help on an error of a loader section.
#[tactic(auto, unfolding(crate::specs::Help::loader_help))]
fn loader_help(number: u32) -> Option<&'static str>
    ensures { option_map (λ text. text.now) result ≡ loader_help number }
{
    match number {
        11 => Some("The loader section is shorter than its own header. The file is damaged."),
        12 => Some(
            "The tables of libraries, imports and relocation headers pass the end of the loader section. A count is damaged, or the section is truncated.",
        ),
        13 => Some(
            "The name of a library, an import or an export passes the end of the loader section. The name's offset or loaderStringsOffset is damaged.",
        ),
        14 => Some("A library counts more imports than the container has. The file is damaged."),
        15 => Some("An import belongs to no library. The file is damaged."),
        16 => Some(
            "The main, initialization or termination entry is in a section that isn't instantiated. The file is damaged.",
        ),
        17 => Some(
            "A relocation header names a section that isn't instantiated. The file is damaged.",
        ),
        18 => Some(
            "A relocation program passes the end of the loader section. The file is damaged.",
        ),
        19 => Some(
            "The table of exports passes the end of the loader section, or has too many slots. The file is damaged.",
        ),
        20 => Some(
            "An export is in a section that isn't instantiated, or passes on an import that isn't there. The file is damaged.",
        ),
        _ => None,
    }
}

/// Returns the help on an error of packed data.
#[tactic(auto, unfolding(crate::specs::Help::packed_help))]
fn packed_help(number: u32) -> Option<&'static str>
    ensures { option_map (λ text. text.now) result ≡ packed_help number }
{
    match number {
        21 => Some("A section's packed data ends inside an instruction. The data is truncated."),
        22 => Some(
            "A section's packed data has an instruction that doesn't exist. The data is damaged, or isn't packed at all.",
        ),
        23 => Some(
            "A section's packed data has a count that doesn't fit 32 bits. The data is damaged.",
        ),
        24 => Some(
            "A section's packed data expands to more bytes than its image has. The data or unpackedSize is damaged.",
        ),
        25 => Some(
            "A section's packed data expands to fewer bytes than its image has. unpackedSize is damaged, or the data is truncated.",
        ),
        _ => None,
    }
}

/// Returns the help on an error of a relocation program.
#[tactic(auto, unfolding(crate::specs::Help::relocation_help))]
fn relocation_help(number: u32) -> Option<&'static str>
    ensures { option_map (λ text. text.now) result ≡ relocation_help number }
{
    match number {
        31 => Some(
            "A relocation program has an instruction that doesn't exist. The program is damaged, or relocCount is too large.",
        ),
        32 => Some("A relocation program ends inside an instruction. Its relocCount is too small."),
        33 => Some(
            "A repeat reaches back past the start of its relocation program. The program is damaged.",
        ),
        34 => Some(
            "A repeat begins inside an instruction of two halfwords. The relocation program is damaged.",
        ),
        35 => Some(
            "A repeat contains another one, and the format has no nested repeats. The relocation program is damaged.",
        ),
        36 => Some(
            "A relocation program takes more than 16,777,216 steps. It is damaged, or made to keep a loader busy.",
        ),
        37 => Some(
            "A relocation program changes a word that passes the end of its section's memory. The program belongs to another section, or totalSize is damaged.",
        ),
        38 => Some("A relocation program adds an import that isn't there. The program is damaged."),
        39 => Some(
            "A relocation program names a section that isn't instantiated. The program is damaged.",
        ),
        _ => None,
    }
}

/// Returns the help on an error of a script.
#[tactic(auto, unfolding(crate::specs::Help::script_help))]
fn script_help(number: u32) -> Option<&'static str>
    ensures { option_map (λ text. text.now) result ≡ script_help number }
{
    match number {
        41 => Some(
            "The line isn't one of a script. Compare its words with docs/SCRIPTS.md, and look for carriage returns, tabs, double spaces and spaces at its end.",
        ),
        42 => Some(
            "A number is spelled wrongly, or is too large. A decimal number has no leading zero, a hex number is 0x and at most eight digits, ALIGN is at most 12, and TOTAL at most 16,777,216.",
        ),
        43 => Some(
            "The line uses a section or an import that no line above declares. Declare it first; upper and lower case differ.",
        ),
        44 => Some(
            "An earlier line of this kind has the same name. Rename one of the two, or write a library once with all its imports after it.",
        ),
        45 => Some(
            "The line comes too late, a second time, or as an import before any library. The order is versions, libraries with their imports, sections, contents, exports, main, init, term.",
        ),
        46 => Some(
            "Two fixups of a section are less than 4 bytes apart, so their words overlap. Correct one of the offsets; a tvector has words at OFFSET and OFFSET + 4.",
        ),
        47 => Some(
            "Bytes, a fixup's word or an offset pass the section's TOTAL. Raise TOTAL, or correct the offset.",
        ),
        48 => Some(
            "The script passes a limit of docs/SCRIPTS.md. No option raises a limit, so split the script.",
        ),
        49 => Some(
            "A word of the line isn't among the words that can be there. Use a word of docs/SCRIPTS.md, in lower case; both options together are weak,before.",
        ),
        _ => None,
    }
}

/// Returns the help on an error of certificates, closures, placement or connections.
#[tactic(auto, unfolding(crate::specs::Help::closure_help))]
fn closure_help(number: u32) -> Option<&'static str>
    ensures { option_map (λ text. text.now) result ≡ closure_help number }
{
    match number {
        51 => Some(
            "The line isn't one that a certificate has there. Compare it with section 9 of docs/FORMATS.md, and look for carriage returns, spaces at its end and a missing last line feed.",
        ),
        52 => Some(
            "The certificates aren't one for each section of the script, in order. They may be those of another script.",
        ),
        60 => Some(
            "No fragment of this name was given. Pass it under exactly this name; upper and lower case differ.",
        ),
        61 => Some(
            "The fragment needs a library that wasn't given. Pass its container under exactly this name; upper and lower case differ. If nobody has it, `pef prepare` makes a stub of it, and `pef stubs` writes one.",
        ),
        62 => Some(
            "The library doesn't export a symbol that the fragment needs. Pass a library that exports it, or link the fragment with the import weak.",
        ),
        63 => Some(
            "The library is older than the oldest that the fragment accepts. Pass a newer library.",
        ),
        64 => Some(
            "The library no longer serves a fragment that was linked with so old a version. Pass an older library, or link the fragment again with this one.",
        ),
        65 => Some(
            "Libraries pass the symbol on in a cycle, and none of them defines it. Pass a library that defines it.",
        ),
        66 => Some(
            "Fragments have to be initialized before each other in a cycle, and this one is in it or waits for it. Remove the option before from one library of the cycle.",
        ),
        67 => Some(
            "No address below the limit has room for the next section. Place less, or raise the limit; that of the commands is 0x10000000.",
        ),
        68 => Some(
            "No open connection has this number. It was closed already, or belongs to another context.",
        ),
        69 => Some(
            "The context has given as many connections as it may, open or closed: 65,536, if no other number was asked for. Make a new context.",
        ),
        70 => Some(
            "The relocation programs of the new fragments take more steps together than the context allows. Allow more, or leave this fragment out.",
        ),
        _ => None,
    }
}

/// Returns the help on an error of files, inputs or memory.
#[tactic(auto, unfolding(crate::specs::Help::port_help))]
fn port_help(number: u32) -> Option<&'static str>
    ensures { option_map (λ text. text.now) result ≡ port_help number }
{
    match number {
        71 => Some(
            "The file couldn't be read, and nothing was written. Check that it exists and that you may read it.",
        ),
        72 => Some(
            "The file couldn't be written, and may be missing or hold any bytes now. Check its folder, your permissions and the space on the disk, and run the command again.",
        ),
        73 => Some(
            "Reading the standard input failed. Check the program at the other end of the pipe, and run the command again.",
        ),
        74 => Some(
            "The standard input has more than 536,870,912 bytes. Check what was piped in: a script isn't that long.",
        ),
        75 => Some(
            "The sections of the new fragments take more bytes together than the context allows. Allow more, or leave this fragment out.",
        ),
        99 => Some("An allocation failed. Give the program more memory."),
        _ => None,
    }
}

/// Returns the help on an error of a file of the classic Mac OS.
#[tactic(auto, unfolding(crate::specs::Help::mac_help))]
fn mac_help(number: u32) -> Option<&'static str>
    ensures { option_map (λ text. text.now) result ≡ mac_help number }
{
    match number {
        76 => Some(
            "The data fork of a file in MacBinary passes the end of the file. The file was cut, or its header is damaged; the fork is read as far as it goes.",
        ),
        77 => Some(
            "The resource fork of a file in MacBinary passes the end of the file. The file was cut, or its header is damaged; the fork is read as far as it goes.",
        ),
        78 => Some(
            "The comment of a file in MacBinary passes the end of the file. The file was cut, or its header is damaged; the forks are read.",
        ),
        80 => Some(
            "The file has no container with this name or number. Numbers begin at #0; upper and lower case of a name differ, and a fragment for CFM-68K is found by a number alone.",
        ),
        81 => Some(
            "The header says that it is of MacBinary II or III, and its CRC is wrong. The forks are read all the same.",
        ),
        82 => Some(
            "The file begins as AppleSingle or AppleDouble, and ends inside its header. The file is truncated.",
        ),
        83 => Some(
            "The file begins as AppleSingle or AppleDouble, and its version is neither 1 nor 2. The file is damaged.",
        ),
        84 => Some(
            "The table of entries passes the end of the file. The number of entries is damaged, or the file is truncated.",
        ),
        85 => Some(
            "An entry passes the end of the file. The file is truncated, or the entry's row is damaged; other entries can be read.",
        ),
        86 => Some("An entry has too few bytes for its fields. The length in its row is damaged."),
        87 => Some(
            "The map of a resource fork passes the end of the fork. The fork is truncated, or it isn't a resource fork.",
        ),
        88 => Some(
            "The type list of a resource fork passes the end of the map. The fork is damaged.",
        ),
        89 => Some(
            "The row of a resource type passes the end of the map. The number of types is damaged, or the map is truncated.",
        ),
        90 => Some(
            "A resource type counts more resources than the map has bytes for. The other types can be read.",
        ),
        91 => Some(
            "The reference to a resource passes the end of the map. The type's count is damaged, or the map is truncated.",
        ),
        92 => Some(
            "The name of a resource passes the end of the map. The resource's bytes can be read all the same.",
        ),
        93 => Some(
            "The bytes of a resource pass the end of the fork's data. The reference or the length is damaged, or the fork is truncated.",
        ),
        94 => Some("The resource cfrg is shorter than its header. It is truncated."),
        95 => Some("The version of the resource cfrg isn't 1. It is damaged."),
        96 => Some(
            "A member of the resource cfrg passes its end, or has too small a size, so the members after it aren't found. Search the data fork for containers.",
        ),
        97 => Some(
            "The name of a member passes the end of the member. Its other fields can be read all the same.",
        ),
        98 => Some(
            "The container of a member passes the end of the data fork, or there is no data fork. The fork is truncated, or lies in another file.",
        ),
        _ => None,
    }
}

/// Returns the help on a note.
#[tactic(auto, unfolding(crate::specs::Help::note_help))]
fn note_help(number: u32) -> Option<&'static str>
    ensures { option_map (λ text. text.now) result ≡ note_help number }
{
    match number {
        101 => Some(
            "A reserved field isn't 0. Nothing depends on it, but the file may be damaged there.",
        ),
        102 => Some(
            "The format doesn't name this kind of section. Nothing is done with the section.",
        ),
        103 => Some(
            "The format doesn't name this way of sharing a section. There is one instance, as for every share.",
        ),
        104 => Some(
            "A current version is below an oldest version beside it. Clients of some version will be refused.",
        ),
        105 => Some(
            "An entry point is past the end of its section. Calling it would run what isn't this section's.",
        ),
        106 => Some(
            "An export is past the end of its section. What is imported from it isn't in this section.",
        ),
        107 => Some(
            "A program relocates a word past the image of its section. The word is in memory that begins as zeros.",
        ),
        108 => Some(
            "The hash table doesn't lead to each export, or the names are longer than all strings together. Exports are found all the same, but by going through all of them.",
        ),
        109 => Some(
            "Bytes follow the last part of the container. They may belong to another container, or the file is padded.",
        ),
        110 => Some(
            "The relocation programs from this one on ask for too many steps together, and weren't verified. The file may be crafted to hang a loader.",
        ),
        111 => Some(
            "The packed data from this section on is too long together, and wasn't verified. The file may be crafted to hang a loader.",
        ),
        112 => Some(
            "A section has bytes that an earlier part has, too. An offset or a size may be damaged.",
        ),
        113 => Some("Bytes between two parts belong to none. An offset or a size may be damaged."),
        114 => Some("An address is added to a word to which one was added already."),
        115 => Some(
            "Some containers of the file weren't inspected: together they ask for too much. Take each out by `pef extract FILE '#NUMBER' OUT`, and inspect it alone.",
        ),
        116 => Some(
            "The loader section counts as instantiated, so the instantiated sections aren't the first ones. Rows of the loader section may name each section that is there.",
        ),
        117 => Some(
            "Bytes follow the forks of a file in MacBinary. A length in its header may be damaged, or something was added to the file.",
        ),
        118 => Some(
            "The container of a member needs more bytes than the member has. The fork was cut, or a length is damaged; the container is read up to the end of its member.",
        ),
        119 => Some(
            "The container of a member is in the data fork, which isn't in this file. Inspect the data fork with this file beside it.",
        ),
        120 => Some(
            "The data fork seems to be in another format, which isn't unpacked. Open it with the program that the note names, and inspect what comes out.",
        ),
        121 => Some(
            "nameOffset is neither -1, which says that there is no name, nor the offset of a byte of the container. The section header may be damaged.",
        ),
        122 => Some(
            "The architecture of a member of the table of fragments isn't that of its container, or is none that there is. The member may be damaged.",
        ),
        123 => Some(
            "A member of the table of fragments has a usage that the format doesn't name. It may be damaged.",
        ),
        124 => Some(
            "The container was probably changed as text is: its line ends, or its characters. Transfer the file again, as binary.",
        ),
        125 => Some(
            "Rows of a table that follow each other are zero bytes. The file may have lost them. Get it again.",
        ),
        _ => None,
    }
}

/// Returns the help on an answer that only this library gives.
#[tactic(auto, unfolding(crate::specs::Help::library_help))]
fn library_help(number: u32) -> Option<&'static str>
    ensures { option_map (λ text. text.now) result ≡ library_help number }
{
    match number {
        200 => Some(
            "The buffer for the result is too small. Call again with a buffer of the length that was stored.",
        ),
        201 => Some("There is nothing under this number."),
        202 => Some("The context isn't open. Open it by pef_open first."),
        203 => Some(
            "A fragment of an open connection has a weak library of this name, and was prepared without it. Add the library after that connection is closed.",
        ),
        204 => Some(
            "There are 256 fragments already, stubs of missing libraries among them, and no more fit. Leave out files or libraries that aren't needed, or remove fragments.",
        ),
        205 => Some("The granule isn't a power of two, or is below 16."),
        206 => Some(
            "The size of the options isn't that of this library's struct, or the values of stub options are none. Set it to sizeof, and build with the header of this library.",
        ),
        207 => Some(
            "The closure of an open connection has this fragment. Close its connections first.",
        ),
        208 => Some(
            "A fragment of an open connection has a weak library of this name, whose version didn't fit. Remove this fragment after that connection is closed.",
        ),
        209 => Some(
            "The context has a fragment with this name, which stays the first. Remove it first, or add this one by pef_add.",
        ),
        210 => Some(
            "There are more or fewer addresses than sections that the preparation would place. pef_new_sections says how many they are.",
        ),
        211 => Some(
            "More than 16,383 symbols are imported from a missing library, and no container can export as many. Pass the library itself.",
        ),
        212 => Some(
            "A symbol with a name of more than 65,535 bytes is imported from a missing library, and no container can export it. The importing file is damaged.",
        ),
        213 => Some(
            "The symbols that are imported from a missing library have too long names together for one container. Pass the library itself.",
        ),
        214 => Some(
            "The symbols of missing libraries have no numbers left: the last one passes FFFFFFFF. Begin at a lower number, or take a smaller step.",
        ),
        215 => Some(
            "The name of a symbol that is imported from a missing library can't be written in a script, from which a stub with memory is made. Make a stub with numbers.",
        ),
        216 => Some(
            "The symbols that are imported from a missing library take more than 16,777,216 bytes. Give each fewer bytes, or make a stub with numbers.",
        ),
        _ => None,
    }
}
