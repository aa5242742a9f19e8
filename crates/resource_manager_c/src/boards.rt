// The calls of a board of packs.
ghost use Rattle.std.specs.Prelude.{◌≡◌};
ghost use Rattle.definition.specs.Board.{watch, arrive, leave, lent, board_make, board_call, board_answer, board_answers, board_report};
ghost use Rattle.board_codes.specs.Codes.{answering, answer_numbers, report_code};
ghost use Rattle.board_answers.specs.Numbers.{all_answered, all_numbers};
ghost use Rattle.resource_manager.specs.Boundary.{crossing, board_crossed};

#[unsafe(no_mangle)]
pub extern "C" fn resource_manager_board_make(words: &mut [u16], bytes: &mut [u8]) -> u64
    ensures { crossing result words.new bytes.new ≡ board_crossed (board_make (lent words.old bytes.old)) }
{
    resource_manager::boards::resource_manager_board_make(words, bytes)
}

#[unsafe(no_mangle)]
pub extern "C" fn resource_manager_board_watch(
    words: &mut [u16],
    bytes: &mut [u8],
    name: &[u8],
    class: &[u8],
) -> u64
    ensures { crossing result words.new bytes.new ≡ board_crossed (board_call (watch (record { name = name.entry.now; class = class.now })) (lent words.old bytes.old)) }
{
    resource_manager::boards::resource_manager_board_watch(words, bytes, name, class)
}

#[unsafe(no_mangle)]
pub extern "C" fn resource_manager_board_arrive(
    words: &mut [u16],
    bytes: &mut [u8],
    number: u16,
    contents: &[u16],
    bodies: &[u8],
) -> u64
    ensures { crossing result words.new bytes.new ≡ board_crossed (board_call (arrive (record { number = number; contents = contents.now; bodies = bodies.now })) (lent words.old bytes.old)) }
{
    resource_manager::boards::resource_manager_board_arrive(words, bytes, number, contents, bodies)
}

#[unsafe(no_mangle)]
pub extern "C" fn resource_manager_board_leave(
    words: &mut [u16],
    bytes: &mut [u8],
    number: u16,
) -> u64
    ensures { crossing result words.new bytes.new ≡ board_crossed (board_call (leave number) (lent words.old bytes.old)) }
{
    resource_manager::boards::resource_manager_board_leave(words, bytes, number)
}

#[unsafe(no_mangle)]
pub extern "C" fn resource_manager_board_answer(
    words: &[u16],
    bytes: &[u8],
    query: u16,
    pack: &mut u16,
) -> u64
    ensures { answering result pack.new ≡ answer_numbers (board_answer (lent words.now bytes.now) query) pack.old }
{
    resource_manager::boards::resource_manager_board_answer(words, bytes, query, pack)
}

#[unsafe(no_mangle)]
pub extern "C" fn resource_manager_board_answers(
    words: &[u16],
    bytes: &[u8],
    answers: &mut [u64; 32],
    packs: &mut [u16; 32],
) -> u64
    ensures { all_answered result answers.new packs.new ≡ all_numbers (board_answers (lent words.now bytes.now)) answers.old packs.old }
{
    resource_manager::boards::resource_manager_board_answers(words, bytes, answers, packs)
}

#[unsafe(no_mangle)]
pub extern "C" fn resource_manager_board_report(words: &[u16], bytes: &[u8], number: u16) -> u64
    ensures { result ≡ report_code (board_report (lent words.now bytes.now) number) }
{
    resource_manager::boards::resource_manager_board_report(words, bytes, number)
}
