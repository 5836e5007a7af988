// What is wrong, in the words of a person who writes models: a sentence for each number with which a check refuses.
// `check --help` prints the table from this file, and README.md has it.
pub fn sentence(number: u8) -> &'static str {
    match number {
        1 => "the text is longer than 65,535 bytes",
        2 => "this character begins nothing here, or may not stand so in a string",
        3 => "this string or comment is never closed",
        4 => "over 255 bytes, 18 digits, TEXT*4294967295, 8 lists deep or 256 attributes",
        5 => "this, or the end of the text, cannot stand here: something may be missing",
        6 => "a reserved word: it is no name, and what it begins is not checked here",
        7 => "the version of INTERLIS must be written 2.4",
        8 => "this is not the name of what ends here",
        9 => "this name is taken, or the attribute is inherited and not marked EXTENDED",
        10 => "nothing of this name is known so far, or no attribute of it is inherited",
        11 => "this names something of the wrong sort, as a class where a domain belongs",
        12 => "the base is FINAL and cannot be extended",
        13 => "property twice, ABSTRACT with FINAL, or NUMERIC or an ABSTRACT domain used",
        14 => "the bounds differ in count of decimals or are reversed, or the length is 0",
        15 => "(FINAL) needs a base whose enumeration it closes",
        16 => "the type is of another kind than the base's",
        17 => "a legal value has an illegal reading at the base",
        18 => "the base names neither this domain or structure nor one it descends from",
        19 => "the model is too large: its records up to here pass 65,535 bytes",
        22 => "the unit is missing, added, or neither the base's nor a descendant of it",
        _ => "",
    }
}
