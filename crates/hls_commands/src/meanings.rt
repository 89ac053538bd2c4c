//! What each refusal means, and what to change: the text that `explain` prints. `tools/docs` writes it as REFUSAL-NAMES.md.

/// What each name means and what to change, in the order of the names. The last line has no line feed.
pub const MEANINGS: &str = "\
AfterRecording: the stop is after the last place, and all renditions are finished. Request a stop within the recording.
AheadOfChannel: with serve --mend, a fragment starts more than --fill after the newest end of the other renditions, while these \
continue: its encoder's clock is wrong, or it sends faster than the others. Set the clock. If the clocks of all encoders jump, the channel continues by \
itself, after a discontinuity.
BadBox: a box of an init section or of a fragment breaks ISO/IEC 14496-12: its children don't fill it, a field lies past its \
end, a required box is missing or repeated, or its version is unknown. Send the stream exactly as the encoder wrote it; if you \
did, change the encoder.
BadCharge: the charge for a segment is above 3600000000. Give 0 to 3600000000 microseconds, or none.
BadEpoch: the instant of time 0 is before 1970 or after 9000-01-01T00:00:00Z. Give one in between, for example \
2024-01-01T00:00:00Z.
BadFraming: the length of a request's body is ambiguous (Content-Length together with Transfer-Encoding, two different \
lengths, a transfer coding other than chunked), or its chunks are malformed. Send one Content-Length, or chunks; check what a \
proxy in between changes.
BadHead: the bytes received aren't the head of an HTTP request, or an HTTP/1.1 request doesn't have exactly one Host field. \
Check the client: it may use TLS on this port.
BadMethod: the path doesn't support this method. The response's Allow field lists the methods that it supports.
BadPreferred: the preferred length is 0 or longer than the target duration. Give 1 to the target, in microseconds.
BadQuery: a catch-up request needs from and to, and may have preferred and charge, each a number of 1 to 16 digits, in \
microseconds. If serve was started with --epoch, from and to may be instants. Examples: /catchup?from=0&to=8000000, or \
/catchup?from=2024-01-01T20:00:00Z&to=2024-01-01T21:00:00%2B00:00, with %2B for a plus sign.
BadRange: the start isn't before the stop. Request a stop after the start.
BadRendition: there is no rendition, there are more than 16, or one has a name, bandwidth or tolerance outside its limits, or \
a name that is already used. Give each as name:kind:bandwidth:tolerance, for example v720:video:3000000:0.
BadSize: a box is smaller than its own header. The stream is damaged, or doesn't start with a box: send it from the beginning.
BadTag: a line of a playlist is a tag that has an invalid value, is repeated, comes too late, or isn't supported (keys, master \
playlists). The number after the name is the line's, counted from 1.
BadTarget: the target duration isn't a whole number of seconds from 1 to 3600. Give one that is.
BaseOffset: a fragment locates its samples by their offset in a whole file (base_data_offset in tfhd). Configure the encoder \
to count from the moof: -movflags +default_base_moof, which +cmaf includes.
BeforeEpoch: from or to is an instant before the epoch, the instant of time 0 that was given to serve. Request a later one; \
check its UTC offset, and --epoch.
BeforeRecording: no kept place is at or before the start: it is before the recording, or was trimmed. Request a later start, \
or keep more (--keep).
BindFailed: serve can't listen on the address: another program uses the port, the host doesn't have the address, or the port \
requires other privileges. Give another address.
Busy: another process has the journal. End it, or give each channel a journal of its own (--journal).
Conflict: what was requested doesn't exist yet. Try again later.
DataOutside: a sample's bytes lie outside the mdat of its fragment. The stream was edited, or its encoder writes wrong \
offsets: send it as it was written.
EmptyFragment: a fragment has no sample of the timing track, or starts and ends in the same microsecond. Configure the encoder \
to write longer fragments.
EndReached: a certificate that claims that there is no plan has the last place in its closed set, so it proves nothing. Make a \
new certificate, and don't trust the source of this one.
Ended: the live line has ended, and takes no more places. Nothing needs to be done.
Finished: the rendition is finished, and takes no more fragments. Continue in another channel; finish a rendition only at the \
very end.
Form: the text of a certificate is malformed. The number after the name is that of the first wrong line, counted from 1; a \
missing line counts. Make a new certificate, with LF at the end of each line.
Full: a recording would exceed 2^40 bytes, or a store is full. Start another channel.
Gone: a byte of the requested range was trimmed. Reload the playlist, or keep more (--keep).
HeadTooLarge: the head of a request has more than 16384 bytes or 64 fields. Send fewer or shorter fields; cookies are the \
likely cause.
InitChanged: an init section came that differs from the rendition's: the codec, size or timescale changed, or another encoder \
is sending. With serve --mend, one that differs only in bit rates, times, names and metadata counts as a repeat. Restore the \
encoder's settings. For new settings start an empty channel with hls_channel anew NAME or serve --anew, and restart its \
encoders: its playlists continue after a discontinuity.
JournalDamaged: bytes of a journal's log that had been synced are damaged, at the byte after the name. Begin an empty channel: \
serve --anew, or hls_channel anew NAME, which sets the journal aside.
JournalOther: a journal is of a channel with another target, preferred length, epoch or ladder than the arguments. Give those of \
before, or begin an empty channel: serve --anew, or hls_channel anew NAME, which sets the journal aside.
JournalStale: the numbers in a journal are behind those that players have seen: another process has served the channel since, or \
the journal is an old copy. Begin an empty channel above them: serve --anew with --base; hls_origin@NAME does so by itself, and \
sets the journal aside.
LedgerFull: the log has 4194304 entries, and takes no more. Start another process and point the encoders to it; fewer, longer \
fragments fill the log more slowly. With serve --journal the log is replaced before it is full.
Marked: players have seen more than the journal has, since its disk failed or was full. Begin an empty channel: serve --anew, or \
hls_channel anew NAME, which sets the journal aside.
MdatAlone: an mdat comes without a moof before it: the file isn't fragmented, or has samples before its first moof. Write it \
with -movflags +frag_keyframe+delay_moov+default_base_moof.
Memory: an allocation failed; the refused call changed nothing. Give the process more memory, or keep less (--keep), and try \
again.
MissingTag: a playlist has no EXT-X-TARGETDURATION, a URI without EXTINF, or an EXTINF without a URI. It may be truncated: \
write it completely.
MissingUnit: a journal's media don't have the unit of the record whose number follows, or have other bytes there: a file was \
removed or damaged. Check the disk, and begin an empty channel: serve --anew, or hls_channel anew NAME, which sets the journal aside; \
hls_programme reads what is whole.
MoofWithoutMdat: a moof or moov comes before the mdat of the previous moof. Bytes are missing: send the stream as it was \
written.
NoChannel: the log of a journal doesn't begin with the record of a channel. Begin an empty channel: serve --anew, or hls_channel \
anew NAME.
NoCut: no plan has every segment within the target duration, so there is no playlist. Give a longer --target, or configure the \
encoder to write sync samples (keyframes) more often.
NoDecodeTime: a fragment has no decode time (tfdt), as in ismv and isml. Configure the encoder to write CMAF or plain \
fragmented MP4.
NoDefault: a sample's duration or size, or the first sample's flags, are in none of trun, tfhd and trex. Change the encoder.
NoInit: a fragment or the end of the stream came before an init section (ftyp, moov). Send the stream from the beginning.
NoPlace: there are fewer than two places where the stream can be cut. Record longer, and start fragments with sync samples \
(keyframes).
NoTimingTraf: a fragment has no traf of the timing track, which is the first video track, or else the first track: each track \
has a moof of its own. Send each track to a rendition of its own.
NoTrack: the init section has no track. Send the encoder's own init section.
NotAllowed: no segment may reach from one place to the next; the number after the name is the first place's, counted from 0. \
The time between them doesn't fit the target duration, or there is a gap between them. Give a longer --target, or configure \
the encoder to write sync samples (keyframes) more often.
NotFound: the path, the rendition or the job is unknown, or has nothing yet. docs/HTTP.md lists the paths; a live playlist \
exists once a segment is closed.
NotM3u: the first line isn't #EXTM3U, so this is no playlist. It may be a server's error page that says why.
NotYet: the stop is after the last place, and the recording continues. Try again later, or request an earlier stop.
OpenEnded: a box has size 0, so it extends to the end of the file, and a live stream has none. Configure the encoder to write \
sizes.
Outside: a range ends before it starts, or past the end of the recording. Request bytes within the recording.
Overlap: a fragment starts before the end of the previous one, and isn't a retransmission. Keep the clock when an encoder \
restarts (ffmpeg: +frag_discont and -output_ts_offset), and let only one encoder send to a rendition.
PlanCost: the cost in a certificate isn't that of its plan, or isn't the price of the last place. Make a new certificate, and \
don't trust the source of this one.
PlanEnds: the plan in a certificate doesn't start at place 0, or doesn't end at the last place. Make a new certificate, and \
don't trust the source of this one.
PlanStep: the plan in a certificate has a step that isn't allowed; the numbers after the name are its places. Make a new \
certificate, and don't trust the source of this one.
PriceStart: in a certificate, place 0 doesn't have the price 0, or isn't in the closed set. Make a new certificate, and don't \
trust the source of this one.
PriceStep: an allowed step shows that the prices or the closed set of a certificate prove nothing; the numbers after the name \
are its places. Make a new certificate, and don't trust the source of this one.
ProgrammeTooLong: there are more than 16384 places between start and stop. Request less at a time, or cut without --preferred.
RangeOutside: the range starts at or after the end, or requests the last 0 bytes. The response's Content-Range field has the \
length.
ReadFailed: standard input couldn't be read to the end. Check what writes to it.
RecordingFull: the init section and all fragments of a rendition would exceed 2^40 bytes. Start another channel.
SlideTooMany: a slide would remove no segment, or more than the live line has. Nothing needs to be done.
SlideTooShort: a slide would leave a rendition less than three target durations. Nothing needs to be done.
Stray: a result came for a job that isn't running, or is running for another version or request. Nothing needs to be done.
TableFull: all 64 places for jobs are taken. Delete a job (DELETE /job/<id>), and try again.
TableNotSorted: in a certificate's table, a place doesn't come after the previous one, or its times are out of order; the \
number after the name is the place's. Make a new certificate, and don't trust the source of this one.
TimeTooLarge: a fragment's time exceeds 2^53 microseconds or 2^64 ticks; usually its decode time is negative. Shift the times \
(ffmpeg: -output_ts_offset 0.0213334 for AAC at 48 kHz).
TooLarge: an init section has more than 1048576 bytes, a fragment more than 67108864, or the body of a request that isn't a \
stream more than 65536. Write shorter fragments.
TooLong: a playlist has more than 16777216 bytes or 131072 segments. Use the playlist of a shorter window.
TooMany: a slide would remove no segment, or more than the live line has. Nothing needs to be done.
TooManyTracks: the init section has more than 8 tracks. Send each track to a rendition of its own.
TooShort: a slide would leave a rendition less than three target durations. Nothing needs to be done.
TrimTooFar: a trim would remove fragments that the live line still needs. Nothing needs to be done.
Truncated: the stream ends inside a box, or before the mdat of its last moof. What came before is kept: continue from the \
start of the last fragment.
TwoTimingTrafs: a fragment has two traf boxes of the timing track. Configure the encoder to write one for each track.
UnknownJob: no job has this id: it was deleted, or never existed. Request the recording again.
UnknownRendition: the channel has no rendition with this number. Renditions are counted from 0, in the order of serve's \
arguments.
UnknownTrack: a fragment has a traf of a track that isn't in the init section. Send the init section that belongs to the \
stream.
UnknownVersion: a journal has the format of another version of the program. Run that version, or begin an empty channel: serve \
--anew, or hls_channel anew NAME, which sets the journal aside.
Utf8: a playlist isn't UTF-8, or starts with a byte order mark. Write it in UTF-8 without one.
WriteFailed: standard output couldn't be written to the end; what was written is incomplete. Make room, and run the command \
again.
WrongRecord: the record of a journal whose number follows doesn't follow from those before it. Begin an empty channel: serve --anew, \
or hls_channel anew NAME, which sets the journal aside, and report it.
ZeroScale: the timing track's timescale is 0. Change the encoder.";
