// The exports of the public operations to C and Rust: each calls the function of its name and states its clauses.
#![tactic(auto)]

ghost use Rattle.std.specs.Prelude.{◌≡◌, length};
ghost use Rattle.rules.specs.Numbers.{read_number, read_refusal, read_value};
ghost use Rattle.rules.specs.Show.{find_record, show_name};
ghost use Rattle.rules.specs.Check.{lent, check};
ghost use Rattle.answers.specs.Handing.{handed};
ghost use Rattle.records.specs.Packing.{packed_found, packed_part};

// The answer's numbers in their order: number (0 where the text is accepted), place, line, column, the book's length,
// definitions, and two that are 0 in every answer as yet.
#[unsafe(no_mangle)]
pub extern "C" fn auzuplens_check(text: &[u8], book: &mut [u8], answer: &mut [u64; 8])
    ensures { (answer.new ≡ handed (check text.now (lent (length book.old))).answer)
        × (book.new ≡ (check text.now (lent (length book.old))).buffer) }
{
    auzuplens::auzuplens_check(text, book, answer)
}

// 0 after a refusal.
#[unsafe(no_mangle)]
pub extern "C" fn auzuplens_reading(value: i64, decimals: u64, base_decimals: u64) -> i64
    ensures { result ≡ read_value (read_number value decimals base_decimals) }
{
    auzuplens::auzuplens_reading(value, decimals, base_decimals)
}

// 0, 20 or 21.
#[unsafe(no_mangle)]
pub extern "C" fn auzuplens_reading_refusal(value: i64, decimals: u64, base_decimals: u64) -> u64
    ensures { result ≡ read_refusal (read_number value decimals base_decimals) }
{
    auzuplens::auzuplens_reading_refusal(value, decimals, base_decimals)
}

// Where the record begins; 2^64 - 1 where it is not there.
#[unsafe(no_mangle)]
pub extern "C" fn auzuplens_find(book: &[u8], record: u64) -> u64
    ensures { result ≡ packed_found (find_record book.now «record») }
{
    auzuplens::auzuplens_find(book, record)
}

// The part of the text that is the name of the record, packed: its start times 256, and its length.
#[unsafe(no_mangle)]
pub extern "C" fn auzuplens_show(text: &[u8], book: &[u8], beginning: u64) -> u64
    ensures { result ≡ packed_part (show_name text.now book.now beginning) }
{
    auzuplens::auzuplens_show(text, book, beginning)
}
