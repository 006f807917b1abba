// The class table: for each of the 66 classes the words of an element and the pages of a span, as the
// model's specs/Classes.antt defines them. The compiler builds the table on the stack in each call that
// reads it, so its rows are small. A crate apart from classes for the gate's time: each wrong program
// proves its whole crate again, and a constant array of structs is dear.
#![tactic(auto)]

ghost use Rattle.std.specs.Prelude.{◌≡◌, ◌/◌, ◌≤◌};
ghost use Rattle.model.specs.Memory.{word_bytes};
ghost use Rattle.model.specs.Classes.{rows, element_bytes, class_pages};

// The number of classes but class 0.
pub const ROWS: usize = 66;

// The words of a class's element, and the pages of its span.
#[derive(Clone, Copy)]
pub struct Row(pub u16, pub u16);

// Row k is that of class k + 1; class 0 has none. Beside it its bytes, as the model has them.
const CLASS_ROWS: [Row; ROWS] = [
    Row(1, 1), // 8 per 8192
    Row(2, 1), // 16 per 8192
    Row(4, 1), // 32 per 8192
    Row(6, 1), // 48 per 8192
    Row(8, 1), // 64 per 8192
    Row(10, 1), // 80 per 8192
    Row(12, 1), // 96 per 8192
    Row(14, 1), // 112 per 8192
    Row(16, 1), // 128 per 8192
    Row(18, 1), // 144 per 8192
    Row(20, 1), // 160 per 8192
    Row(22, 1), // 176 per 8192
    Row(24, 1), // 192 per 8192
    Row(26, 1), // 208 per 8192
    Row(28, 1), // 224 per 8192
    Row(30, 1), // 240 per 8192
    Row(32, 1), // 256 per 8192
    Row(36, 1), // 288 per 8192
    Row(40, 1), // 320 per 8192
    Row(44, 1), // 352 per 8192
    Row(48, 1), // 384 per 8192
    Row(52, 1), // 416 per 8192
    Row(56, 1), // 448 per 8192
    Row(60, 1), // 480 per 8192
    Row(64, 1), // 512 per 8192
    Row(72, 1), // 576 per 8192
    Row(80, 1), // 640 per 8192
    Row(88, 1), // 704 per 8192
    Row(96, 1), // 768 per 8192
    Row(112, 1), // 896 per 8192
    Row(128, 1), // 1024 per 8192
    Row(144, 1), // 1152 per 8192
    Row(160, 1), // 1280 per 8192
    Row(176, 2), // 1408 per 16384
    Row(192, 1), // 1536 per 8192
    Row(224, 2), // 1792 per 16384
    Row(256, 1), // 2048 per 8192
    Row(288, 2), // 2304 per 16384
    Row(336, 1), // 2688 per 8192
    Row(384, 3), // 3072 per 24576
    Row(400, 2), // 3200 per 16384
    Row(432, 3), // 3456 per 24576
    Row(512, 1), // 4096 per 8192
    Row(608, 3), // 4864 per 24576
    Row(672, 2), // 5376 per 16384
    Row(768, 3), // 6144 per 24576
    Row(816, 4), // 6528 per 32768
    Row(848, 5), // 6784 per 40960
    Row(864, 6), // 6912 per 49152
    Row(1024, 1), // 8192 per 8192
    Row(1184, 7), // 9472 per 57344
    Row(1216, 6), // 9728 per 49152
    Row(1280, 5), // 10240 per 40960
    Row(1360, 4), // 10880 per 32768
    Row(1536, 3), // 12288 per 24576
    Row(1696, 5), // 13568 per 40960
    Row(1792, 7), // 14336 per 57344
    Row(2048, 2), // 16384 per 16384
    Row(2304, 9), // 18432 per 73728
    Row(2384, 7), // 19072 per 57344
    Row(2560, 5), // 20480 per 40960
    Row(2720, 8), // 21760 per 65536
    Row(3072, 3), // 24576 per 24576
    Row(3408, 10), // 27264 per 81920
    Row(3584, 7), // 28672 per 57344
    Row(4096, 4), // 32768 per 32768
];

// The row of class c.
pub fn row_of(c: usize) -> Row
    requires { (1 ≤ c) × (c ≤ rows) }
    ensures { (result.0 ≡ element_bytes c / word_bytes) × (result.1 ≡ class_pages c) }
{
    CLASS_ROWS[c - 1]
}
