//! A host with natives of its own: a price list, and what scripts charge.

ghost use Rattle.std.specs.Prelude.{◌≡◌, ◌∷◌, [], ◌+ℤ◌, Some, IfOk, is_ok, if◌then◌else◌, option_copied, slice_get};
ghost use Rattle.grain_host.specs.Answers.{reply_of};
ghost use Rattle.grain_value.specs.Tree.{integer};
ghost use Rattle.grain_host.specs.Law.{Ask, Failed};
ghost use Rattle.grain_host.specs.Tables.{arguments};
ghost use Rattle.run_examples.specs.Prices.{empty, listed, price, fitting, discount, integer_at, text_at, pointer_at, adjusts, property, assigned, gives, charged, leaves, reason_text, problem, price_law, price_lawful};

use grain_fault::{EvalAltResult, Position};
use grain_host::{Args, Host, HostAnswer, HostFault, ProgressAnswer};
use grain_value::{Array, Dynamic, FnPtr, Kinds, List, Native, OutOfMemory, Text};
use std::alloc::Global;

// The keys of the natives.
const PRICE: u64 = 1;

const DISCOUNT: u64 = 2;

const CHARGE: u64 = 3;

const GET_PROPERTY: u64 = 4;

const SET_PROPERTY: u64 = 5;

const ADJUST: u64 = 6;

// The kinds of values that they take.
const INTEGER: u32 = 2;

const TEXT: u32 = 4;

const POINTER: u32 = 8;

/// An article and its price.
#[derive(Drop)]
struct Line {
    article: Text,
    price: i64,
}

/// A price list, and the total that scripts have charged. Scripts call `price(article)`,
/// `discount(amount, percent)` and `charge(amount)`, and `adjust(article, f)`, which calls their
/// function with the article's price and has its value. An article has the properties `price`, which
/// they read, and `charged`, to which they assign an amount that is charged.
#[derive(Drop)]
pub struct PriceList {
    lines: List<Line>,
    total: i64,
}

/// Why a call has no value.
#[derive(Drop)]
enum Reason {
    /// No native of the key takes these arguments.
    Unknown,
    /// The article is not on the list.
    NoSuchArticle,
    /// A percentage is not one of 0 to 100, or an amount does not fit 64 bits.
    OutOfRange,
}

impl Reason {
    fn text(&self) -> &'static str
        ensures { result.now ≡ reason_text self.now }
    {
        match self {
            Reason::Unknown => "unknown to the price list",
            Reason::NoSuchArticle => "no such article",
            Reason::OutOfRange => "out of range",
        }
    }
}

impl PriceList {
    /// A list without articles, to which nothing is charged. It takes no memory.
    pub fn new(alloc: Global) -> PriceList
        ensures { result ≡ empty }
    {
        PriceList {
            lines: List::new(alloc),
            total: 0,
        }
    }

    /// Puts an article on the list. Of several prices the first holds. After want of memory the
    /// list is as it was.
    pub fn add(&mut self, article: Text, price: i64) -> Result<(), OutOfMemory>
        ensures { self.new ≡ (if is_ok result then listed article price self.old else self.old) }
    {
        self.lines.push(Line { article, price })
    }

    /// What scripts have charged.
    pub fn total(&self) -> i64
        ensures { result ≡ self.now.total }
    {
        self.total
    }

    // The native `price`: what the list says of an article.
    fn price(&self, article: &str) -> Result<i64, Reason>
        ensures { result ≡ price article.now self.now.lines }
    {
        for line in self.lines.as_slice() {
            if line.article.as_str() == article {
                return Ok(line.price);
            }
        }
        Err(Reason::NoSuchArticle)
    }

    // The native `charge`: it adds to the total, and gives the new one.
    fn charge(&mut self, amount: i64) -> Result<i64, Reason>
        ensures value { result ≡ fitting (self.old.total +ℤ amount) }
        ensures state { self.new ≡ charged self.old result }
    {
        let total = self.total.checked_add(amount).ok_or(Reason::OutOfRange)?;
        self.total = total;
        Ok(total)
    }

    // A property of an article that scripts read.
    fn property(&self, article: &str, name: &str) -> Result<i64, Reason>
        ensures { result ≡ property article.now name.now self.now.lines }
    {
        if name == "price" {
            self.price(article)
        } else {
            Err(Reason::Unknown)
        }
    }

    // A property to which scripts assign an amount.
    fn set_property(&mut self, name: &str, amount: i64) -> Result<i64, Reason>
        ensures value { result ≡ assigned name.now amount self.old }
        ensures state { self.new ≡ charged self.old result }
    {
        if name == "charged" {
            self.charge(amount)
        } else {
            Err(Reason::Unknown)
        }
    }

    // The native `adjust`: it asks a function with the price of an article, and has its value.
    fn adjust(&self, alloc: Global, args: &Args) -> Result<HostAnswer, OutOfMemory>
        ensures { let vs = arguments args.now.receiver args.now.values in
            IfOk result (λ answer. reply_of answer
            ≡ Some (adjusts self.now.lines (text_at vs 0) (pointer_at vs 1))) }
    {
        match (text(args, 0), pointer(args, 1)) {
            (Some(article), Some(rule)) => match self.price(article) {
                Ok(price) => ask(alloc, rule, price),
                Err(reason) => failed(alloc, reason),
            },
            _ => failed(alloc, Reason::Unknown),
        }
    }

    // Does what the native of this key does.
    fn perform(&mut self, key: u64, args: &Args) -> Result<i64, Reason>
        ensures value { result ≡ gives self.old key (arguments args.now.receiver args.now.values) }
        ensures state { self.new
            ≡ leaves self.old key (arguments args.now.receiver args.now.values) }
    {
        match key {
            PRICE => self.price(text(args, 0).ok_or(Reason::Unknown)?),
            DISCOUNT => {
                let amount = integer(args, 0).ok_or(Reason::Unknown)?;
                let percent = integer(args, 1).ok_or(Reason::Unknown)?;
                discount(amount, percent)
            }
            CHARGE => self.charge(integer(args, 0).ok_or(Reason::Unknown)?),
            GET_PROPERTY => {
                let article = text(args, 0).ok_or(Reason::Unknown)?;
                self.property(article, text(args, 1).ok_or(Reason::Unknown)?)
            }
            SET_PROPERTY => {
                let name = text(args, 1).ok_or(Reason::Unknown)?;
                self.set_property(name, integer(args, 2).ok_or(Reason::Unknown)?)
            }
            _ => Err(Reason::Unknown),
        }
    }
}

// The native `discount`: an amount less `percent` percent of it, rounded towards zero.
fn discount(amount: i64, percent: i64) -> Result<i64, Reason>
    ensures { result ≡ discount amount percent }
{
    if percent < 0 || percent > 100 {
        return Err(Reason::OutOfRange);
    }
    match amount.checked_mul(100 - percent) {
        Some(hundredfold) => Ok(hundredfold / 100),
        None => Err(Reason::OutOfRange),
    }
}

// The argument at the index. A receiver is the first.
fn argument(args: &Args, index: usize) -> Option<&Dynamic>
    ensures { option_copied result
        ≡ slice_get (arguments args.now.receiver args.now.values) index }
{
    match &args.receiver {
        None => args.values.get(index),
        Some(held) if index == 0 => Some(&held.value),
        Some(_) => args.values.get(index - 1),
    }
}

// The argument at the index, if it is an integer.
fn integer(args: &Args, index: usize) -> Option<i64>
    ensures { result ≡ integer_at (arguments args.now.receiver args.now.values) index }
{
    argument(args, index)?.as_int()
}

// The argument at the index, if it is a text.
fn text(args: &Args, index: usize) -> Option<&str>
    ensures { option_copied result
        ≡ text_at (arguments args.now.receiver args.now.values) index }
{
    Some(argument(args, index)?.as_text()?.as_str())
}

// The argument at the index, if it is a pointer to a function.
fn pointer(args: &Args, index: usize) -> Option<&FnPtr>
    ensures { option_copied result
        ≡ pointer_at (arguments args.now.receiver args.now.values) index }
{
    argument(args, index)?.as_pointer()
}

// A call of the function with this price is asked for. Only one is asked for at a time, so each has
// the token 0.
fn ask(alloc: Global, rule: &FnPtr, price: i64) -> Result<HostAnswer, OutOfMemory>
    ensures { IfOk result (λ answer. reply_of answer
        ≡ Some (Ask 0 rule.now (integer price ∷ []))) }
{
    let pointer = rule.copy(alloc)?;
    let mut arguments = Array::new(alloc);
    arguments.push(Dynamic::Int(price))?;
    Ok(HostAnswer::Ask {
        token: 0,
        pointer,
        arguments,
    })
}

// The answer to a call that has no value.
fn failed(alloc: Global, reason: Reason) -> Result<HostAnswer, OutOfMemory>
    ensures { IfOk result (λ answer. reply_of answer ≡ Some (Failed (problem reason))) }
{
    let text = Text::copy_of(alloc, reason.text())?;
    let fault = match reason {
        Reason::Unknown => EvalAltResult::ErrorSystem(Text::new(alloc), text),
        _ => EvalAltResult::ErrorRuntime(Dynamic::Text(text), Position::NONE),
    };
    match HostFault::new(fault) {
        Ok(fault) => Ok(HostAnswer::Failed(fault)),
        Err(_) => unreachable!(),
    }
}

impl Host for PriceList {
    ghost law = { price_law };

    ghost lawful = { price_lawful };

    fn resolve(&self, name: &str, kinds: &Kinds) -> Option<Native> {
        let key = match (name, kinds.as_slice()) {
            ("price", [TEXT]) => PRICE,
            ("discount", [INTEGER, INTEGER]) => DISCOUNT,
            ("charge", [INTEGER]) => CHARGE,
            ("adjust", [TEXT, POINTER]) => ADJUST,
            ("index$get$", [TEXT, TEXT]) => GET_PROPERTY,
            ("index$set$", [TEXT, TEXT, INTEGER]) => SET_PROPERTY,
            _ => return None,
        };
        Some(Native { key, writes: false })
    }

    fn call(&mut self, alloc: Global, key: u64, args: &mut Args) -> HostAnswer {
        if key == ADJUST {
            return self.adjust(alloc, args).unwrap_or(HostAnswer::Memory);
        }
        match self.perform(key, args) {
            Ok(value) => HostAnswer::Done(Dynamic::Int(value)),
            Err(reason) => failed(alloc, reason).unwrap_or(HostAnswer::Memory),
        }
    }

    fn resume(
        &mut self,
        _alloc: Global,
        _token: u64,
        outcome: Result<Dynamic, HostFault>,
        _args: &mut Args,
    ) -> HostAnswer {
        match outcome {
            Ok(value) => HostAnswer::Done(value),
            Err(fault) => HostAnswer::Failed(fault),
        }
    }

    fn forget(&mut self, _token: u64) {}

    fn progress(&mut self, _alloc: Global, _count: u64) -> ProgressAnswer {
        ProgressAnswer::GoOn
    }

    fn vouch(&self) {}
}
