//! What a stream asks of its printer.
ghost use Rattle.std.specs.Prelude.{◌≡◌, None};
ghost use Rattle.vp_c.specs.Asking.{IsMadeToAsk, IsNextOf, IsLastOf};

use std::alloc::Global;
use vp_asking::{Asker, AskerHandle, NO_REQUEST, RequestOfC};
use vp_calls::{NO_LANGUAGE, NO_MEMORY, NO_PRINTER, OK, language_of};

/// Makes what finds the requests of a stream of a language's number.
#[unsafe(no_mangle)]
pub extern "C" fn vp_new_requests(alloc: Global, language: u32, requests: &mut AskerHandle) -> u32
    ensures { IsMadeToAsk language requests.new.asker result }
{
    let Some(language) = language_of(language) else {
        *requests = AskerHandle::none();
        return NO_LANGUAGE;
    };
    match Box::new(alloc, Asker::new(language)) {
        Ok(it) => {
            *requests = AskerHandle::of(it);
            OK
        }
        Err(_) => {
            *requests = AskerHandle::none();
            NO_MEMORY
        }
    }
}

/// Takes bytes up to the next request, and tells how many, and the request.
#[unsafe(no_mangle)]
pub extern "C" fn vp_next_request(
    alloc: Global,
    requests: &mut AskerHandle,
    input: &[u8],
    taken: &mut usize,
    request: &mut RequestOfC,
) -> u32
    ensures { IsNextOf requests.old.asker requests.new.asker input.now taken.new request.new result }
{
    let Some(mut it) = requests.take(alloc) else {
        *taken = 0;
        *request = NO_REQUEST;
        return NO_PRINTER;
    };
    let (count, found) = it.next(input);
    *taken = count;
    *request = found;
    *requests = AskerHandle::of(it);
    OK
}

/// Tells the request that the end of the stream makes known.
#[unsafe(no_mangle)]
pub extern "C" fn vp_last_request(
    alloc: Global,
    requests: &mut AskerHandle,
    request: &mut RequestOfC,
) -> u32
    ensures same { requests.new.asker ≡ requests.old.asker }
    ensures told { IsLastOf requests.old.asker request.new result }
{
    let Some(it) = requests.take(alloc) else {
        *request = NO_REQUEST;
        return NO_PRINTER;
    };
    *request = it.last();
    *requests = AskerHandle::of(it);
    OK
}

/// Frees what finds requests, where there is any, and leaves null.
#[unsafe(no_mangle)]
pub extern "C" fn vp_free_requests(alloc: Global, requests: &mut AskerHandle)
    ensures { requests.new.asker ≡ None }
{
    let _ = requests.take(alloc);
}
