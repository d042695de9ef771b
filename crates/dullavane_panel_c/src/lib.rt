// dullavane_panel_c: the display's calls for C, in a static library of their own: each hands on to the library's function of the same name, with the same promise.
#![tactic(auto)]

ghost use Rattle.interval.specs.Lent.{Lent, lent_member};
ghost use Rattle.rules.specs.Panel.{first_page, member_page, refusal_page};
ghost use Rattle.std.specs.Prelude.{true};
ghost use Rattle.pages.specs.Promises.{line_of};
ghost use Rattle.panel.specs.Press.{cents};
ghost use Rattle.dullavane.specs.Asked.{direction_of};
ghost use Rattle.dullavane_panel.specs.Called.{PageCalled, StepCalled, PressCalled};
ghost use Rattle.dullavane_panel.specs.Words.{first_narrow, member_narrow, who_in, standing_in};

// A requirement's first page, from its numbers.
#[unsafe(no_mangle)]
pub extern "C" fn dullavane_panel_first(
    number: u32,
    direction: u32,
    rcr: i64,
    pool: i64,
    cost: i64,
    text: &mut [u8],
) -> u32
    ensures { PageCalled (first_narrow number direction) (first_page number (direction_of direction) rcr pool cost) text.old result
        text.new }
{
    dullavane_panel::dullavane_panel_first(number, direction, rcr, pool, cost, text)
}

// A member's page, from its numbers.
#[unsafe(no_mangle)]
pub extern "C" fn dullavane_panel_member(
    residual: u32,
    number: u32,
    standing: u32,
    payment: i64,
    used: i64,
    unused: i64,
    text: &mut [u8],
) -> u32
    ensures { PageCalled (member_narrow residual number standing)
        (member_page (line_of (who_in residual number) (standing_in standing) payment used unused)) text.old result text.new }
{
    dullavane_panel::dullavane_panel_member(residual, number, standing, payment, used, unused, text)
}

// A refusal's phrase.
#[unsafe(no_mangle)]
pub extern "C" fn dullavane_panel_phrase(refusal: u32, text: &mut [u8]) -> u32
    ensures { PageCalled true (refusal_page refusal) text.old result text.new }
{
    dullavane_panel::dullavane_panel_phrase(refusal, text)
}

// A key, over the page's three words alone.
#[unsafe(no_mangle)]
pub extern "C" fn dullavane_panel_step(
    page: &mut [u32],
    key: u32,
    book: u32,
    requirement: u32,
    members: u32,
) -> u32
    ensures { StepCalled key book requirement members page.old result page.new }
{
    dullavane_panel::dullavane_panel_step(page, key, book, requirement, members)
}

// A key press over a taken book: it moves the page and draws it.
#[unsafe(no_mangle)]
pub extern "C" fn dullavane_panel_press(
    page: &mut [u32],
    key: u32,
    book: u32,
    tally: &[u32],
    part: &[u8],
    figures: &[i64],
    numbers: &[u16],
    homes: &[u8],
    payments: &[i64],
    used: &[i64],
    unused: &[i64],
    reply: &[u64],
    text: &mut [u8],
) -> u32
    ensures { (rest : Lent) → PressCalled key book tally.now part.now
        (lent_member rest figures.now numbers.now homes.now)
        (cents payments.now used.now unused.now) reply.now page.old text.old result
        page.new text.new }
{
    dullavane_panel::dullavane_panel_press(
        page, key, book, tally, part, figures, numbers, homes, payments, used, unused, reply, text,
    )
}
