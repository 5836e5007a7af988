// Words: where one ends, and its code, by the reserved words: document 01, "Symbols".
#![tactic(auto)]

ghost use Rattle.std.specs.Prelude.{◌≡◌, true, List, ℕ, ◌+◌, ◌≤◌, ◌<◌, length};
ghost use Rattle.rules.specs.Bytes.{part, is_word_byte};
ghost use Rattle.ground.specs.Parts.{run_end};
ghost use Rattle.words.specs.Words.{word_code, rows, are_long, code_among};

fn is_word_byte(b: u8) -> bool
    ensures { result ≡ is_word_byte b }
{
    // Letters first, as most are: in one expression the compiler looks for `_` and digits before them.
    if b.is_ascii_alphabetic() {
        return true;
    }
    b.is_ascii_digit() || b == b'_'
}

pub fn word_end(text: &[u8], at: usize) -> usize
    ensures { result ≡ run_end is_word_byte text.now at }
{
    ground::runs::run_end(text, at, is_word_byte)
}

// The reserved words by their length, in rows of a code and the word: its code for a word of the forms, or a dot.
// Bytes are plainer here than structs, of which each would be a line.
static WORDS_2: [u8; 30] = *b"BAT.AS.BY.IN.NO.OF.ON.OR.PI.TO";

static WORDS_3: [u8; 52] = *b"MEND.ALL.AND.ANY.BAG.FIX.I16.I32.NOT.OID.SET.TID.URI";

static WORDS_4: [u8; 125] = *b"\
    OTEXTRUNIT.ARCS.AREA.BASE.CODE.DATE.DIM1.DIM2.FONT.FORM.FREE.FROM.JOIN.LAST.LINE.LIST.NAME.NULL.SIGN.THIS\
    .TYPE.VIEW.WHEN.WITH";

static WORDS_5: [u8; 102] = *b"\
    AMODELDTOPICECLASSHFINALPMTEXT.BASED.BLANK.COORD.EQUAL.FIRST.GRADS.IDENT.LOCAL.TABLE.UNION.WHERE\
    .XMLNS";

static WORDS_6: [u8; 98] = *b"\
    JDOMAIN.BASKET.BINARY.COORD2.COORD3.FORMAT.HIDING.LNBASE.OBJECT.OTHERS.PARENT.REFSYS.UNIQUE.VERTEX";

static WORDS_7: [u8; 176] = *b"\
    CVERSIONIEXTENDSQNUMERIC.BOOLEAN.CHARSET.CONTEXT.CONTOUR.DEFAULT.DEFINED.DEGREES.DEPENDS.DERIVED\
    .ENUMVAL.GENERIC.GRAPHIC.IMPORTS.OBJECTS.ORDERED.RADIANS.SURFACE.TIDSIZE.WITHOUT";

static WORDS_8: [u8; 207] = *b"\
    @INTERLISGABSTRACTLEXTENDED.ANYCLASS.BLACKBOX.CIRCULAR.CONTINUE.DATETIME.DEFERRED.DIRECTED.EXTERNAL\
    .FUNCTION.LINEATTR.LINESIZE.OPTIONAL.OVERLAPS.POLYLINE.REQUIRED.ROTATION.SYMBOLGY.THATAREA.THISAREA\
    .TRANSFER";

static WORDS_9: [u8; 160] = *b"\
    FSTRUCTUREKATTRIBUTENMANDATORY.ACCORDING.CLOCKWISE.EXISTENCE.GENERICCS.MULTIAREA.PARAMETER.PERIPHERY\
    .REFERENCE.REFSYSTEM.STRAIGHTS.TIMEOFDAY.TRANSIENT.UNDEFINED";

static WORDS_10: [u8; 132] = *b"\
    .AGGREGATES.ATTRIBUTES.CONSTRAINT.CONTINUOUS.CONTRACTED.HALIGNMENT.INSPECTION.METAOBJECT.MULTICOORD\
    .PROJECTION.VALIGNMENT.VERTEXINFO";

static WORDS_11: [u8; 132] = *b"\
    .AGGREGATION.ASSOCIATION.CARDINALITY.CONSTRAINTS.DERIVATIVES.ENUMTREEVAL.INHERITANCE.RESTRICTION\
    .SUBDIVISION.TRANSLATION.UNQUALIFIED";

static WORDS_12: [u8; 26] = *b".ANYSTRUCTURE.MULTISURFACE";

static WORDS_13: [u8; 14] = *b".MULTIPOLYLINE";

static WORDS_16: [u8; 17] = *b".COUNTERCLOCKWISE";

static WORDS_21: [u8; 22] = *b".NOINCREMENTALTRANSFER";

// The code in the row that has the word, or that of a name. Inlined, so that the rows of a length are constants there.
#[inline(always)]
fn among(word: &[u8], list: &[u8]) -> u8
    requires { length word.now < 256 }
    ensures { (l : List (List ℕ)) → list.now ≡ rows l → are_long (length word.now) l ≡ true
        → result ≡ code_among word.now l }
{
    for row in list.chunks_exact(word.len() + 1) {
        if &row[1..] == word {
            return row[0];
        }
    }
    1
}

// The code of a word, by the rows of its length.
fn code_of(word: &[u8]) -> u8
    ensures { result ≡ word_code word.now }
{
    match word.len() {
        2 => among(word, &WORDS_2),
        3 => among(word, &WORDS_3),
        4 => among(word, &WORDS_4),
        5 => among(word, &WORDS_5),
        6 => among(word, &WORDS_6),
        7 => among(word, &WORDS_7),
        8 => among(word, &WORDS_8),
        9 => among(word, &WORDS_9),
        10 => among(word, &WORDS_10),
        11 => among(word, &WORDS_11),
        12 => among(word, &WORDS_12),
        13 => among(word, &WORDS_13),
        16 => among(word, &WORDS_16),
        21 => among(word, &WORDS_21),
        _ => 1,
    }
}

// No reserved word has a byte above `Z`; most names have one as their second or last byte.
pub fn word_code(text: &[u8], at: usize, len: usize) -> u8
    requires { (0 < len) × (len < 256) × (at + len ≤ length text.now) }
    ensures { result ≡ word_code (part text.now at len) }
{
    let last = text[at + len - 1];
    if b'Z' < last {
        return 1;
    }
    if 1 < len && b'Z' < text[at + 1] {
        return 1;
    }
    code_of(&text[at..at + len])
}
