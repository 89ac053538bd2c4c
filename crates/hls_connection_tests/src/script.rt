//! A channel's life in one script: an init section and three units by PUT, the end of the rendition, a request for catch-up over all
//! of it, the files of its job, and the job's removal; each request with its reply.

ghost use Rattle.std.specs.Prelude.{◌≤◌, ◌<◌, ◌^◌, IfOk, length};

use crate::streams::{put, stream};
use std::alloc::{AllocError, Global};

/// How many events the script leads to: an init section, three units, and an end.
pub const EVENTS: u64 = 5;

pub const FINISH: &[u8] = b"POST /finish/0 HTTP/1.1\r\nHost: a\r\n\r\n";

pub const CATCH_UP: &[u8] = b"POST /catchup?from=0&to=12000000 HTTP/1.1\r\nHost: a\r\n\r\n";

/// What follows a job's path: nothing for its line, and then its files.
pub const FILE_NAMES: [&str; 5] = ["", "/master.m3u8", "/0.m3u8", "/0.mp4", "/certificate.txt"];

/// What an encoder and a client send first: the stream, its end, and the request for catch-up.
pub fn encoder(alloc: Global) -> Result<Vec<u8>, AllocError>
    ensures { IfOk result (λ bytes. length bytes.items < 2 ^ 64) }
{
    let mut text = put(alloc, 0, "", &stream(alloc, 3)?)?;
    text.extend_from_slice(FINISH)?;
    text.extend_from_slice(CATCH_UP)?;
    Ok(text)
}

/// The request for a file of a job, or for its line.
pub fn get_file(alloc: Global, id: u32, file: &str) -> Result<Vec<u8>, AllocError>
    ensures { IfOk result (λ bytes. length bytes.items < 2 ^ 64) }
{
    let text = format!(in alloc; "GET /job/{id}{file} HTTP/1.1\r\nHost: a\r\n\r\n")?;
    Ok(text.into_bytes())
}

/// The request that removes a job.
pub fn delete(alloc: Global, id: u32) -> Result<Vec<u8>, AllocError>
    ensures { IfOk result (λ bytes. length bytes.items < 2 ^ 64) }
{
    let text = format!(in alloc; "DELETE /job/{id} HTTP/1.1\r\nHost: a\r\n\r\n")?;
    Ok(text.into_bytes())
}

/// What the client sends next: a request for the job's line and for each of its files.
pub fn get_files(alloc: Global, id: u32) -> Result<Vec<u8>, AllocError>
    ensures { IfOk result (λ bytes. length bytes.items < 2 ^ 64) }
{
    let mut text = Vec::new(alloc);
    for file in FILE_NAMES {
        text.extend_from_slice(&get_file(alloc, id, file)?)?;
    }
    Ok(text)
}

/// The replies to a stream that is sent to a channel with this number of events: what came before is a duplicate.
const TAKEN: [&[u8]; 5] = [
    b"HTTP/1.1 200 OK\r\nContent-Type: text/plain\r\nContent-Length: 29\r\n\r\ninit 1 accepted 3 repeated 0\n",
    b"HTTP/1.1 200 OK\r\nContent-Type: text/plain\r\nContent-Length: 29\r\n\r\ninit 0 accepted 3 repeated 1\n",
    b"HTTP/1.1 200 OK\r\nContent-Type: text/plain\r\nContent-Length: 29\r\n\r\ninit 0 accepted 2 repeated 2\n",
    b"HTTP/1.1 200 OK\r\nContent-Type: text/plain\r\nContent-Length: 29\r\n\r\ninit 0 accepted 1 repeated 3\n",
    b"HTTP/1.1 200 OK\r\nContent-Type: text/plain\r\nContent-Length: 29\r\n\r\ninit 0 accepted 0 repeated 4\n",
];

const FINISHED: &[u8] =
    b"HTTP/1.1 200 OK\r\nContent-Type: text/plain\r\nContent-Length: 9\r\n\r\nfinished\n";

const REPEATED: &[u8] =
    b"HTTP/1.1 200 OK\r\nContent-Type: text/plain\r\nContent-Length: 9\r\n\r\nrepeated\n";

/// The reply to the first and the second request for catch-up.
const ADDED: [&[u8]; 2] = [
    b"HTTP/1.1 202 Accepted\r\nContent-Type: text/plain\r\nContent-Length: 16\r\nLocation: /job/1\r\n\r\njob 1 version 5\n",
    b"HTTP/1.1 202 Accepted\r\nContent-Type: text/plain\r\nContent-Length: 16\r\nLocation: /job/2\r\n\r\njob 2 version 5\n",
];

/// The replies to what is sent first, to a channel with this number of events whose next job has this id.
pub fn encoder_replies(version: u64, id: usize) -> [&'static [u8]; 3] {
    let taken = TAKEN.get(version.min(4) as usize).copied();
    let finished = if version < EVENTS { FINISHED } else { REPEATED };
    let added = ADDED.get(id.wrapping_sub(1)).copied();
    [taken.unwrap_or(b""), finished, added.unwrap_or(b"")]
}

const LINE: &[u8] =
    b"HTTP/1.1 200 OK\r\nContent-Type: text/plain\r\nContent-Length: 16\r\n\r\ncut 0 version 5\n";

const MASTER: &str = "#EXTM3U\n#EXT-X-VERSION:6\n#EXT-X-STREAM-INF:BANDWIDTH=3000000\n0.m3u8";

const LIST: &str =
    "#EXTM3U\n#EXT-X-VERSION:6\n#EXT-X-TARGETDURATION:6\n#EXT-X-MEDIA-SEQUENCE:0\n#EXT-X-DISCONTINUITY-SEQUENCE:0\n#EXT-X-PLAYLIST-TYPE:VOD\n#EXT-X-MAP:URI=\"0.mp4\",BYTERANGE=\"600@0\"\n#EXTINF:4.000000,\n#EXT-X-BYTERANGE:1000@600\n0.mp4\n#EXTINF:4.000000,\n#EXT-X-BYTERANGE:1000@1600\n0.mp4\n#EXTINF:4.000000,\n#EXT-X-BYTERANGE:1000@2600\n0.mp4\n#EXT-X-ENDLIST";

const CERTIFICATE: &str =
    "HLS-CUT-CERTIFICATE 1\ntarget 6\npreferred 4000000\nrenditions 1\nplaces 4\n0 0 0 0 0\n1 4000000 4000000 0 0\n2 8000000 8000000 0 0\n3 12000000 12000000 0 0\ncut 0\nplan 0 1 2 3\nprice 0 0\nprice 1 0\nprice 2 0\nprice 3 0\nend";

/// The reply to a request that removes a job.
pub const GONE: &[u8] = b"HTTP/1.1 204 No Content\r\n\r\n";

/// The reply to a request for all media, of the job or of the channel.
pub fn media_reply(alloc: Global) -> Result<Vec<u8>, AllocError>
    ensures { IfOk result (λ bytes. length bytes.items < 2 ^ 64) }
{
    let mut reply = Vec::from_slice(
        alloc,
        b"HTTP/1.1 200 OK\r\nContent-Type: video/mp4\r\nContent-Length: 3600\r\n\r\n",
    )?;
    reply.extend_from_slice(&stream(alloc, 3)?)?;
    Ok(reply)
}

/// A reply with a text, given without its last line end. The head is a status, optionally followed by `; ` and a field.
pub fn reply(alloc: Global, head: &str, text: &str) -> Result<Vec<u8>, AllocError>
    ensures { IfOk result (λ bytes. length bytes.items < 2 ^ 64) }
{
    let (status, field) = head.split_once("; ").unwrap_or((head, ""));
    let end = if field.is_empty() { "" } else { "\r\n" };
    let kind = if text.starts_with("#EXTM3U") {
        "application/vnd.apple.mpegurl"
    } else {
        "text/plain"
    };
    let len = text.len().wrapping_add(1);
    let reply = format!(in alloc;
        "HTTP/1.1 {status}\r\nContent-Type: {kind}\r\nContent-Length: {len}\r\n{field}{end}\r\n{text}\n"
    )?;
    Ok(reply.into_bytes())
}

/// The replies to requests for a job's files.
#[derive(Drop)]
pub struct JobFiles {
    master: Vec<u8>,
    list: Vec<u8>,
    media: Vec<u8>,
    certificate: Vec<u8>,
}

impl JobFiles {
    pub fn new(alloc: Global) -> Result<JobFiles, AllocError> {
        Ok(JobFiles {
            master: reply(alloc, "200 OK", MASTER)?,
            list: reply(alloc, "200 OK", LIST)?,
            media: media_reply(alloc)?,
            certificate: reply(alloc, "200 OK", CERTIFICATE)?,
        })
    }

    /// In the order of the requests.
    pub fn replies(&self) -> [&[u8]; 5] {
        [
            LINE,
            &self.master,
            &self.list,
            &self.media,
            &self.certificate,
        ]
    }
}
