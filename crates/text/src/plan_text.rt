// The text of a plan's words, as the program `cutplan` prints it. Any words have a text: a word past the end reads as zero.

ghost use Rattle.std.specs.Prelude.{◌≡◌, [], ◌∷◌, ◌++◌, ◌+◌, ◌*◌, ◌^◌, ◌<◌, get_or};
ghost use Rattle.lists.specs.Base.{concat_map, range};
ghost use Rattle.trust.specs.Words.{u64_at, sheet_in, piece_size, waste_size, node_size};
ghost use Rattle.words.specs.Appending.{with_bytes};
ghost use Rattle.text.specs.PlanText.{field, first_line, sheet_text, sheet_texts, plan_text};
ghost use Rattle.text.specs.BodyLines.{field_at, piece_at, waste_at, node_at};

use words::append::Buffer;
use words::numbers;

// ---- words

fn word(words: &[u32], k: usize) -> u32
    ensures { result ≡ get_or words.now k 0 }
{
    words.get(k).copied().unwrap_or(0)
}

// A u64 in two words, low then high.
fn double(words: &[u32], k: usize) -> u64
    requires { k < 2 ^ 40 }
    ensures { result ≡ u64_at words.now k }
{
    numbers::from_halves(word(words, k), word(words, k + 1))
}

// ---- fields

fn put_field<const N: usize>(number: u64, text: &mut Buffer<N>)
    ensures { text.new ≡ with_bytes N text.old (field number) }
{
    text.push(b' ');
    text.push_decimal(number);
}

// `many` words from `from` on. They are no slice: the counts in any words may promise more than there are.
fn put_fields<const N: usize>(words: &[u32], from: usize, many: usize, text: &mut Buffer<N>)
    requires { from + many < 2 ^ 41 }
    ensures { text.new ≡ with_bytes N text.old (concat_map (field_at words.now from) (range many)) }
{
    for i in 0..many {
        put_field(u64::from(word(words, from + i)), text);
    }
}

// ---- lines

// A keyword, as many words from one on, the line's end.
fn word_line<const N: usize>(
    keyword: &[u8],
    words: &[u32],
    from: usize,
    many: usize,
    text: &mut Buffer<N>,
)
    requires { from + many < 2 ^ 41 }
    ensures { text.new ≡ with_bytes N text.old (keyword.now ++ (concat_map (field_at words.now from) (range many) ++ (10 ∷ []))) }
{
    text.push_bytes(keyword);
    put_fields(words, from, many, text);
    text.push(b'\n');
}

// The same with an id before the words. One function for both would take a flag.
fn id_line<const N: usize>(
    keyword: &[u8],
    words: &[u32],
    id: usize,
    many: usize,
    text: &mut Buffer<N>,
)
    requires { id + many < 2 ^ 40 }
    ensures { text.new ≡ with_bytes N text.old (keyword.now ++ (field (u64_at words.now id) ++ (concat_map (field_at words.now (id + 2)) (range many) ++ (10 ∷ [])))) }
{
    text.push_bytes(keyword);
    put_field(double(words, id), text);
    put_fields(words, id + 2, many, text);
    text.push(b'\n');
}

fn node_line<const N: usize>(body: &[u32], at: usize, text: &mut Buffer<N>)
    requires { at < 2 ^ 39 }
    ensures { text.new ≡ with_bytes N text.old (node_at body.now at) }
{
    match word(body, at) {
        0 => word_line(b"cut", body, at + 1, 7, text),
        1 => id_line(b"leaf", body, at + 1, 5, text),
        _ => word_line(b"leaf waste", body, at + 4, 4, text),
    }
}

// ---- the parts of a body, by where they start and how many they are: any words may count more than they hold, so no slice of them
// could be taken. A full buffer takes no more: those left need not be read.
// One loop that takes the line as a closure gets no generated proof: its bound `Fn` would name the const parameter.

fn put_pieces<const N: usize>(body: &[u32], start: usize, many: u32, text: &mut Buffer<N>)
    requires { start < 2 ^ 38 }
    ensures { text.new ≡ with_bytes N text.old (concat_map (λ k. piece_at body.now (start + piece_size * k)) (range many)) }
{
    for k in 0..many as usize {
        if text.is_full() {
            return;
        }
        id_line(b"piece", body, start + 9 * k, 7, text);
    }
}

fn put_waste<const N: usize>(body: &[u32], start: usize, many: u32, text: &mut Buffer<N>)
    requires { start < 2 ^ 38 }
    ensures { text.new ≡ with_bytes N text.old (concat_map (λ k. waste_at body.now (start + waste_size * k)) (range many)) }
{
    for k in 0..many as usize {
        if text.is_full() {
            return;
        }
        word_line(b"waste", body, start + 4 * k, 4, text);
    }
}

fn put_nodes<const N: usize>(body: &[u32], start: usize, many: u32, text: &mut Buffer<N>)
    requires { start < 2 ^ 38 }
    ensures { text.new ≡ with_bytes N text.old (concat_map (λ k. node_at body.now (start + node_size * k)) (range many)) }
{
    for k in 0..many as usize {
        if text.is_full() {
            return;
        }
        node_line(body, start + 8 * k, text);
    }
}

// ---- the plan

fn put_sheet<const N: usize>(body: &[u32], text: &mut Buffer<N>)
    ensures { text.new ≡ with_bytes N text.old (sheet_text (sheet_in body.now)) }
{
    let pieces = word(body, 7);
    let waste = word(body, 8);
    let nodes = word(body, 9);
    id_line(b"sheet", body, 0, 5, text);
    put_pieces(body, 10, pieces, text);
    let behind = 10 + 9 * pieces as usize;
    put_waste(body, behind, waste, text);
    word_line(b"guide", body, 9, 1, text);
    put_nodes(body, behind + 4 * waste as usize, nodes, text);
}

// A full buffer takes no more: the sheets left need not be read.
fn put_sheets<const N: usize>(words: &[u32], text: &mut Buffer<N>)
    ensures { text.new ≡ with_bytes N text.old (sheet_texts words.now) }
{
    for k in 0..word(words, 0) {
        if text.is_full() {
            return;
        }
        put_sheet(plan::sheet_words(words, k), text);
    }
}

fn first_line<const N: usize>(words: &[u32], text: &mut Buffer<N>)
    ensures { text.new ≡ with_bytes N text.old (first_line words.now) }
{
    text.push_bytes(b"plan");
    put_fields(words, 0, 1, text);
    text.push_bytes(b" fitness ");
    text.push_hex(double(words, 1), 16);
    word_line(b" layout", words, 3, 1, text);
}

// The text of the plan, as far as there is room.
pub fn put_plan<const N: usize>(words: &[u32], text: &mut Buffer<N>)
    ensures { text.new ≡ with_bytes N text.old (plan_text words.now) }
{
    first_line(words, text);
    put_sheets(words, text);
}
